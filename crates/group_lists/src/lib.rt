//! Regions in groups: which group a region is of, a value for each group, and of the groups' lists of regions the one list in which each region is
//! its own group's.
#![tactic(auto)]

mod choosing;
mod group;
mod lists;

pub use choosing::choose;
pub use group::group_in;
pub use lists::GroupList;
