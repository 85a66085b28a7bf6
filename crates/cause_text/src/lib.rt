//! What a program says on standard error of how a command ended: the cause in words, and what to do next, one line for each status
//! but 0. Standard output has none of it. Begin at cause.rt.
#![tactic(auto)]

mod advice;
mod cause;
mod meant;
mod place;
mod script;
mod usage;

pub use cause::Cause;
pub use command_base::Status;
pub use meant::{Meant, meant_by};
pub use place::Place;
pub use script::script_text;
pub use usage::usage_text;
