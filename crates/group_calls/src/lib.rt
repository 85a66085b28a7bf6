//! The calls of several servers, each with a disk and a log of its own: each call goes to its region's group, as its server answers it, and a fault
//! of one group's disk refuses nothing on another's. Begin at groups.rt, then calls.rt; a script's handlers call them by serving.rt.
#![tactic(auto)]

mod calls;
mod groups;
mod serving;

pub use group_servers;
pub use group_servers::{handler_threads, region_calls};
pub use groups::{GroupHelper, GroupPass, Groups};
pub use script_handlers;
