//! Splitting the logs of a store that was left: what no store file has goes into one edits file for each region, and then
//! the logs become old ones.
#![tactic(auto)]

mod copying;
mod every;
mod flushed;
mod gathered;
mod grouping;
mod job;
mod numbering;
mod planning;
mod renaming;
mod split_files;
mod splitting;
mod whole;

pub use copying::write_edits;
pub use every::write_all;
pub use flushed::{RegionFlushed, flushed_numbers};
pub use gathered::{Unflushed, gather};
pub use job::EditsJob;
pub use planning::Plan;
pub use renaming::rename_logs;
pub use split_files::SplitFiles;
pub use splitting::split_found;
pub use whole::{SplitReport, split, split_read};
