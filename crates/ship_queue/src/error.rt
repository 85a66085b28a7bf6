//! What a call that ships answers.

ghost use Rattle.std.specs.Prelude.{◌≡◌};
ghost use Rattle.ship_queue.specs.declared.error.ShipRefusal.TheVariants as refusals;
ghost use Rattle.ship_queue.specs.Refusals.{refusal_of};

use disk_images::{Failed, Name};
use log_tail::{Position, TailRefusal};
use thiserror::Error;

/// All was shipped.
#[derive(Clone, Copy, Debug, PartialEq, Eq)]
pub struct Shipped {
    /// How many entries, or 2^64 - 1 where there were more.
    pub entries: u64,
    /// The recorded position, after which there is nothing.
    pub position: Position,
}

/// Why not all was shipped. What had been read before was shipped, unless the peer failed.
#[derive(Clone, Copy, Debug, PartialEq, Eq, Error)]
pub enum ShipRefusal {
    /// There was no memory.
    #[error("no memory")]
    Memory,
    /// The disk failed.
    #[error("the disk failed")]
    DiskFault,
    /// A log is damaged, at this offset in bytes.
    #[error("damaged at {at}")]
    Damaged { name: Name, at: u64 },
    /// The tail began where no entry ends: its log has so many entries.
    #[error("log {file} has {has} entries")]
    NoPosition { file: u64, has: u64 },
    /// The peer failed.
    #[error("the peer failed")]
    PeerFault,
}

impl From<TailRefusal> for ShipRefusal {
    ghost from_gives = { λ e refusal. refusal ≡ refusal_of e };

    fn from(e: TailRefusal) -> ShipRefusal {
        match e {
            TailRefusal::Memory => ShipRefusal::Memory,
            TailRefusal::DiskFault => ShipRefusal::DiskFault,
            TailRefusal::Damaged { name, at } => ShipRefusal::Damaged { name, at },
            TailRefusal::NoPosition { file, has } => ShipRefusal::NoPosition { file, has },
        }
    }
}

impl From<Failed> for ShipRefusal {
    ghost from_gives = { λ _ e. e ≡ refusals.PeerFault };

    fn from(_e: Failed) -> ShipRefusal {
        ShipRefusal::PeerFault
    }
}
