//! The text of a log for an operator: each entry with its cells as they are stored, and the count of the end frame.
//! It reads no file: what stands in one is given.
#![tactic(auto)]

mod dump;

pub use dump::dump_text;
