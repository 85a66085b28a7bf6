//! The script that a load makes of four numbers, and how many calls it has.
#![tactic(auto)]

mod call;
mod cell;
mod counts;
mod generator;
mod options;
mod script;

pub use counts::{CallCounts, count_calls};
pub use options::LoadOptions;
pub use script::make_script;
