//! The command `dump`: prints the entries of one log as they stand in its file.
#![tactic(auto)]

mod command;

pub use command::dump;
