//! The command `recover`: opens a store, so that what was logged stands in its stores once, and prints how far each region
//! goes.
#![tactic(auto)]

mod command;
mod laws;
mod text;

pub use command::recover;
pub use found_files;
pub use laws::damage_is_told_once;
pub use region_replay;
