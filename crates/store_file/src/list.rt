//! What stands in a store file.

use kv_cell::{NumberedCells, Octets};

/// What stands in a store file that is there.
#[derive(Debug, Drop)]
pub struct StoreText {
    /// 1 where it stands in the place of all stores of its region with lower numbers, else 0. One of 1 has no family.
    pub scope: u8,
    /// The family that all its cells have, at most 127 bytes, or none where they are of any.
    pub family: Octets,
    /// The first sequence id that it covers, at least 1.
    pub from: u64,
    /// The last sequence id that it covers, at least the first and at most 2^48-1.
    pub to: u64,
    /// Its cells, strictly in the order of numbered cells, each with a sequence id between the two.
    pub cells: NumberedCells,
}
