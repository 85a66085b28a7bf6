//! The top call: which command the words name, and what each command leaves with each of its statuses.
#![tactic(auto)]

mod command;
mod words;

pub use command::run;
pub use command_base::{Damage, Outcome, Status, refuse};
pub use load_command::region_calls::{FreeGate, Gate};
pub use load_command::run_command;
