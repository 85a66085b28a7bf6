//! Why a tail reads nothing.

ghost use Rattle.std.specs.Prelude.{◌≡◌};
ghost use Rattle.log_tail.specs.Failures.{failure_of};

use disk_images::{Name, NamesError};
use thiserror::Error;

/// Why nothing was read. The tail is as before.
#[derive(Clone, Copy, Debug, PartialEq, Eq, Error)]
pub enum TailRefusal {
    #[error("no memory")]
    Memory,
    #[error("a disk call failed")]
    DiskFault,
    /// The position's log is damaged, at this offset in bytes: its last whole entry ends there, or it is 0 where the header is
    /// wrong.
    #[error("damaged at offset {at}")]
    Damaged { name: Name, at: u64 },
    /// The position's log has so many entries, fewer than stand before the position; or it isn't there, and a higher one is.
    #[error("log {file} has {has} entries")]
    NoPosition { file: u64, has: u64 },
}

impl From<NamesError> for TailRefusal {
    ghost from_gives = { λ e refusal. refusal ≡ failure_of e };

    fn from(e: NamesError) -> TailRefusal {
        match e {
            NamesError::Failed => TailRefusal::DiskFault,
            NamesError::Memory => TailRefusal::Memory,
        }
    }
}
