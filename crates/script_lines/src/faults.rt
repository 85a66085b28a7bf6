//! Why a line is refused.

ghost use Rattle.std.specs.Prelude.{◌≡◌};

use kv_cell::NoMemory;
pub use script_model::{CellField, ScriptWhy};

/// Why a line cannot be read.
#[derive(Clone, Copy)]
pub enum LineError {
    Memory,
    Wrong(ScriptWhy),
}

impl From<NoMemory> for LineError {
    ghost use Rattle.std.specs.Prelude.{◌≡◌};
    ghost use Rattle.script_lines.specs.declared.faults.LineError.TheVariants.{Memory};

    ghost from_gives = { λ _ e. e ≡ Memory };

    fn from(_e: NoMemory) -> LineError {
        LineError::Memory
    }
}
