//! The lines that refuse.

use log_model::Name;
use script_model::ScriptWhy;

/// Why a command is refused.
#[derive(Clone, Copy, Debug, PartialEq, Eq)]
pub enum Refusal {
    Memory,
    Usage,
    /// The first wrong line of the script, and why.
    Script {
        line: u64,
        why: ScriptWhy,
    },
    Source,
    Disk,
    /// A damaged file, and the offset of the damage.
    Damaged {
        name: Name,
        at: u64,
    },
    /// Two files that hold different entries for one number of a region.
    Disagree {
        first: Name,
        second: Name,
        region: u32,
        number: u64,
    },
    /// A file that stands where none may.
    Store {
        name: Name,
    },
    /// A log that has so many entries, where a position stands after more of them.
    Position {
        file: u64,
        has: u64,
    },
}
