//! How a feed goes on, and why it refuses.

ghost use Rattle.std.specs.Prelude.{◌≡◌};
ghost use Rattle.entry_frame.specs.declared.phase.FeedRefusal.TheVariants.{Memory};

use kv_cell::NoMemory;
use std::alloc::AllocFailed;
use thiserror::Error;

/// The region and number of a file's name. Logs have region 0; an edits file has entries of its region alone.
#[derive(Clone, Copy, Debug, PartialEq, Eq)]
pub struct FileKey {
    pub region: u32,
    pub number: u64,
}

/// What is known of a file however its bytes go on.
#[derive(Clone, Copy, Debug)]
pub(crate) enum Phase {
    /// Entries may follow.
    Open,
    /// The text has ended, with the count of an end frame if it has one.
    Ended(Option<u64>),
    /// It is no log text, which shows at this offset.
    Damaged(u64),
}

/// Why a feed gives no entry.
#[derive(Clone, Copy, Debug, PartialEq, Eq, Error)]
pub enum FeedRefusal {
    /// Out of memory. The feed is as it was.
    #[error("no memory")]
    Memory,
    /// The file is no log text, which shows at this offset. The feed answers the same from then on.
    #[error("the log is damaged at offset {at}")]
    Damaged { at: u64 },
}

impl From<NoMemory> for FeedRefusal {
    ghost from_gives = { λ _ e. e ≡ Memory };

    fn from(_e: NoMemory) -> FeedRefusal {
        FeedRefusal::Memory
    }
}

impl<T: Drop> From<AllocFailed<T>> for FeedRefusal {
    ghost from_gives = { λ _ e. e ≡ Memory };

    fn from(_e: AllocFailed<T>) -> FeedRefusal {
        FeedRefusal::Memory
    }
}
