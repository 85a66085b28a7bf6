//! A handler's session with its server: it puts, scans, gets and flushes by calls that name nothing but the region and the data. The session keeps
//! what a call of the server wants beside that: the handler's pass, the time of its puts and the number of its next call. Begin at session.rt.
#![tactic(auto)]

mod beginning;
mod session;
mod sitting;
mod talking;

pub use handler_threads;
pub use handler_threads::{region_calls, region_lock};
pub use session::Session;
pub use sitting::ServerSession;
