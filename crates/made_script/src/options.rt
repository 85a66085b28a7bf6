//! What a load is made from.

/// The numbers that make a load's script.
#[derive(Clone, Copy, Debug, PartialEq, Eq)]
pub struct LoadOptions {
    /// The number that the first handler starts from; handler h starts h - 1 above it.
    pub start: u64,
    /// 1 to 16.
    pub handlers: u32,
    /// 1 to 64.
    pub regions: u32,
    /// How many calls each handler makes: 1 to 10,000.
    pub count: u32,
}
