//! The numbers that the files' formats share.

/// An open gate: what stands after it counts.
pub const OPEN_GATE: u8 = 0xA5;

/// A closed gate as it is written. Each byte but an open gate's closes.
pub const CLOSED_GATE: u8 = 0;

/// Regions have the numbers 1 to this one.
pub const REGIONS: u32 = 64;

/// The greatest number of an edit, 2^48-1.
pub const LAST_EDIT: u64 = 0xFFFF_FFFF_FFFF;
