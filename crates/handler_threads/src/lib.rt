//! Runs a server's handlers, each in a thread of its own, beside threads that help its log. What a handler does is a `Job`'s: script_handlers has
//! the one of a script's calls. Begin at job.rt.
#![tactic(auto)]

mod job;
mod naming;
mod threads;

pub use job::Job;
pub use naming::ServerName;
pub use region_calls;
pub use region_calls::region_lock;
pub use threads::run_all;
