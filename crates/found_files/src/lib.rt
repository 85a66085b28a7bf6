//! The files of a store as an opening finds them: each log, edits and store file is read once and checked, before anything
//! is written. What was read is handed on, with the entries in the order of regions and numbers; what is wrong is told at
//! its first place. The files of one region can be read alone.
#![tactic(auto)]

mod agreeing;
mod by_region;
mod checking;
mod counting;
mod entry_counts;
mod finding;
mod found;
mod names;
mod one_region;
mod reading;
mod refusal;

pub use counting::counting_stores;
pub use finding::find_files;
pub use found::{Finding, FoundEntry, FoundFiles, FoundStore, RegionFinding};
pub use log_model::Damage;
pub use one_region::find_region;
pub use refusal::SplitRefusal;
