//! A script's handlers on a server, or on several: each makes its calls one after the other, and keeps what they answered. `Serves` is what is
//! called, `Calling` the job of the handlers' threads; what else is public serves an `impl Serves`. Begin at serves.rt; script_run opens the server
//! and closes it.
#![tactic(auto)]

mod answering;
mod calling;
mod flushing;
mod getting;
mod handler;
mod making;
mod serves;
mod single;
mod spending;

pub use answering::{of_flush, of_get, of_put, of_roll, of_scan};
pub use calling::Calling;
pub use flushing::lent;
pub use getting::row_behind;
pub use handler::Handler;
pub use handler_threads;
pub use handler_threads::{region_calls, region_lock};
pub use serves::Serves;
