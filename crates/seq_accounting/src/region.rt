//! Regions and their numbers.

/// How many places an array by region has: one for each region, from 1 to 64, and place 0, which is unused.
pub const PLACES: usize = 65;

/// What is flushed of a region: each number of it up to `flushed`.
#[derive(Clone, Copy)]
pub struct RegionMark {
    pub region: u32,
    pub flushed: u64,
}
