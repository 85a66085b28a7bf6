//! The command `load`: makes a script from a number, runs it on an empty store, opens the store again, and prints how many calls
//! there were and how many cells are there.
#![tactic(auto)]

mod checking;
mod command;
mod counting;
mod ending;
mod text;

pub use command::load;
pub use made_script::LoadOptions;
pub use run_command;
pub use run_command::region_calls;
