//! Positions in the logs of a store.

/// A place between two entries: after all entries of the logs with lower numbers, and after so many of its own log. The
/// position (1, 0) is before all.
#[derive(Clone, Copy, Debug, PartialEq, Eq)]
pub struct Position {
    /// The number of the log, which may be an old log by now.
    pub file: u64,
    /// How many entries of that log stand before it.
    pub entries: u64,
}
