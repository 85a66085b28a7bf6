//! The put that a run's status 8 names.

/// A region whose sequence ids are spent, and the last one that its put was told.
#[derive(Clone, Copy, Debug, PartialEq, Eq)]
pub struct Spent {
    /// Counted from 1.
    pub region: u32,
    /// The region's last sequence id, above which there is none.
    pub last: u64,
}
