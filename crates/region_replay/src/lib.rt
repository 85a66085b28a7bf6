//! Replaying the edits files of a store whose logs were split. What no store has of a region goes into its next store, its
//! edits files go, and the region's cells are put in order for whoever opens it. What stands in the files was read before,
//! but where one region is replayed alone.
#![tactic(auto)]

mod alone;
mod clearing;
mod dealing;
mod found;
mod gathering;
mod grouping;
mod laws;
mod one_region;
mod recovering;
mod region;
mod regions;
mod removing;
mod replaying;
mod storing;
mod whole;

pub use found::{Recovered, Replayed};
pub use found_files;
pub use laws::one_sort_gives_the_base;
pub use one_region::replay;
pub use recovering::recover_all;
