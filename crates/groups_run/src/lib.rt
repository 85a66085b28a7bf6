//! Several logs by groups of regions: one to four servers, each with a disk and a log of its own, of which each serves the regions of its group. A
//! region is always of one group, and a fault of one group's disk refuses nothing on another's. Here they are opened, started, dealt out and closed,
//! and run the handlers of a script, each in a thread of its own, beside two threads a group that help its log; group_calls has their calls. Begin
//! at opening.rt, then starting.rt, and serving.rt for a whole run.
#![tactic(auto)]

mod closing;
mod handing;
mod helpers;
mod opening;
mod others;
mod parts;
mod passes;
mod running;
mod seating;
mod served;
mod serving;
mod spending;
mod started;
mod starting;

pub use closing::{GroupsClosed, close_groups};
pub use group_calls;
pub use group_calls::{
    GroupHelper, GroupPass, Groups, group_servers, handler_threads, region_calls, script_handlers,
};
pub use helpers::GroupHelpers;
pub use opening::open_groups;
pub use passes::GroupPasses;
pub use script_run;
pub use served::GroupsServed;
pub use serving::serve_groups;
pub use starting::{GroupsStarted, start_groups};
