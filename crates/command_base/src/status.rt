//! How a call of the program ends.

ghost use Rattle.std.specs.Prelude.{◌≡◌};
ghost use Rattle.command_base.specs.Status.{exit_status};

use disk_images::Name;
use log_model::Damage;
use script_text::ScriptWhy;

/// How a command ended.
#[derive(Clone, Copy, Debug, PartialEq, Eq)]
pub enum Status {
    /// It did its work.
    Done,
    /// Memory was refused.
    Memory,
    /// The words are no command's.
    Usage,
    /// This line of the script is the first wrong one; line 0 where the script is too long.
    Script {
        line: u64,
        why: ScriptWhy,
    },
    /// A read of the script failed.
    SourceFault,
    /// A call of the disk failed.
    DiskFault,
    /// A write of the output failed.
    SinkFault,
    /// The store as found is damaged: a file is in none of its grammars, or two files disagree.
    Damaged(Damage),
    /// A put found no sequence id left in its region, and the log is not broken. It is the first one by handler and then call.
    NumbersSpent {
        /// Counted from 1.
        region: u32,
        /// The region's last sequence id.
        last: u64,
    },
    /// The store isn't empty, and the command wants an empty one. The name is the first one there.
    NotEmpty {
        name: Name,
    },
    /// There is no such position in the logs: the log of this number has so many entries, and the position stands after more
    /// of them; or the log isn't there, and a higher one is.
    NoPosition {
        file: u64,
        has: u64,
    },
}

impl Status {
    /// The exit status of the program.
    pub fn number(self) -> u8
        ensures { result ≡ exit_status self }
    {
        match self {
            Status::Done => 0,
            Status::Memory => 1,
            Status::Usage => 2,
            Status::Script { .. } => 3,
            Status::SourceFault => 4,
            Status::DiskFault => 5,
            Status::SinkFault => 6,
            Status::Damaged(_) => 7,
            Status::NumbersSpent { .. } => 8,
            Status::NotEmpty { .. } => 9,
            Status::NoPosition { .. } => 10,
        }
    }
}

/// How a command ended, and the disk that it left.
#[derive(Drop)]
pub struct Outcome<D> {
    pub status: Status,
    pub disk: D,
}
