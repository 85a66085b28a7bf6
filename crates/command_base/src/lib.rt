//! How a command ends: its statuses, the one line of a refusal, its script read from a source, its output written to a sink.
//! A command is a crate of its own above this one.
#![tactic(auto)]

mod input;
mod log_name;
mod log_reading;
mod output;
mod script_input;
mod status;

pub use log_model::Damage;
pub use log_name::LOG_1;
pub use log_reading::find_log;
pub use output::{emit, refuse, write_all};
pub use script_input::read_script;
pub use status::{Outcome, Status};
