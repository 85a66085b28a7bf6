//! The command `log`: writes the puts of a script into log 1, a commit each, and replies to them.
#![tactic(auto)]

mod command;
mod replies;
mod writing;

pub use command::log;
