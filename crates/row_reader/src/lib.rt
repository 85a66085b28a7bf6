//! Reads of cells in which deletes mask: from cells in order, the puts that a reader sees, in one pass.
#![tactic(auto)]

mod column;
mod family;
mod marks;
mod reading;

pub use reading::mask;
