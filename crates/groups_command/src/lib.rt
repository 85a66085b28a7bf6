//! The command `run` on several disks, each with a log of its own for a group of the regions. Begin at command.rt.
#![tactic(auto)]

mod carrying;
mod command;
mod ran;
mod refusing;
mod status;
mod words;

pub use carrying::carry_out_groups;
pub use command::run_groups;
pub use groups_run::{group_servers, region_calls};
pub use ran::GroupsRan;
pub use refusing::refuse;
pub use status::{GroupsOutcome, GroupsStatus};
pub use words::disks_in;
