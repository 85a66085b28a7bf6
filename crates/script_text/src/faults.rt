//! Why a script is refused.

ghost use Rattle.std.specs.Prelude.{◌≡◌};

use kv_cell::NoMemory;
pub use script_lines::{CellField, ScriptWhy};
use std::error::Error;
use std::fmt;

/// Why a script is refused.
#[derive(Clone, Copy, Debug, PartialEq, Eq)]
pub enum ParseRefusal {
    /// Memory ran out.
    Memory,
    /// The first wrong line, counted from 1, with its cause. The end of the script counts as the line after the
    /// last one, and a script that is too long has line 0.
    Fault { line: u64, why: ScriptWhy },
}

impl From<NoMemory> for ParseRefusal {
    ghost use Rattle.std.specs.Prelude.{◌≡◌};
    ghost use Rattle.script_text.specs.declared.faults.ParseRefusal.TheVariants as refusal;

    ghost from_gives = { λ _ e. e ≡ refusal.Memory };

    fn from(_e: NoMemory) -> ParseRefusal {
        ParseRefusal::Memory
    }
}

impl fmt::Display for ParseRefusal {
    fn fmt<W: fmt::Write>(&self, f: &mut fmt::Formatter<W>) -> fmt::Result {
        match self {
            ParseRefusal::Memory => f.write_str("no memory"),
            ParseRefusal::Fault { line, why } => write!(f, "line {line}: {why}"),
        }
    }
}

impl Error for ParseRefusal {}
