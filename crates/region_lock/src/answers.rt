//! Why a call did not answer its number.

use region_state::Caller;

/// Why a put did not answer its number.
#[derive(Clone, Copy, Debug, PartialEq, Eq)]
pub enum PutRefusal {
    /// There was no memory. With a number, the edit is logged and done, and is shown once a version of the region is.
    Memory { logged: Option<u64> },
    /// The log is broken. With a number, that edit's durability was asked for and did not come, and the edit failed.
    WriteFault { number: Option<u64> },
    /// The region's numbers are spent: the last one is drawn.
    NumbersSpent { last: u64 },
}

/// Why a flush did not answer its number.
#[derive(Clone, Copy, Debug, PartialEq, Eq)]
pub enum FlushRefusal {
    /// There was no memory.
    Memory,
    /// The log is broken.
    WriteFault,
    /// No entry of the region above this flushed number is kept.
    Nothing { flushed: u64 },
    /// This flush of another handler is under way.
    Flushing { by: Caller },
}
