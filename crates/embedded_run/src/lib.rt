//! A server as one call: `run_handlers` opens a store, lets each handler work in a thread and a session of its own, and closes it. What a handler
//! does is its own; what it has learnt then holds of the disk that is handed back. Begin at handler.rt, then running.rt.
#![tactic(auto)]

mod handing;
mod handler;
mod job;
mod joining;
mod outcome;
mod running;
mod seated;
mod serving;

pub use embedded::Session;
pub use embedded::region_calls::{
    ClosedRegion, FlushRefusal, PutRefusal, RollRefusal, Rolled, ScanReply, Scanner, StartWhy,
};
pub use handler::Handler;
pub use outcome::Outcome;
pub use running::run_handlers;
