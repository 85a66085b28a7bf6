//! The command `compact`: opens a store, compacts the store files of one region into one, and prints how many cells it had and
//! has.
#![tactic(auto)]

mod command;
mod compaction;
mod text;

pub use command::compact_region;
pub use recover_command;
pub use store_compact::CompactKind;
