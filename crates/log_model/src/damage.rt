//! What is wrong with the files of a store.

use crate::name::Name;

/// What shows first that files aren't sound.
#[derive(Clone, Copy, Debug, PartialEq, Eq)]
pub enum Damage {
    /// The file is the first damaged one in the order of names: at this offset in bytes, and at 0 where its name is bad.
    Bytes {
        name: Name,
        at: u64,
    },
    /// No file is damaged, and two entries of this region and sequence id differ: the least such region and sequence id,
    /// with the first two names of files that have them, which are one name where a file disagrees with itself.
    Two {
        first: Name,
        second: Name,
        region: u32,
        number: u64,
    },
}
