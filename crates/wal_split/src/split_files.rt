//! What a split hands on.

use crate::planning::Plan;
use disk_images::NameList;
use found_files::FoundStore;

/// What a split read, and what it made of it: for whoever goes on with the opening, so that no file is read again.
#[derive(Drop)]
pub struct SplitFiles {
    /// The names of all files before the split.
    pub names: NameList,
    /// The stores that count, in the order of names.
    pub stores: Vec<FoundStore>,
    /// What was written and renamed, and the entries that aren't flushed.
    pub plan: Plan,
}
