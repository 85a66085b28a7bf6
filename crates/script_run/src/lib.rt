//! Runs the handlers of a script on a server, each in a thread of its own, beside two threads that help the log: opens the server, deals out its
//! passes, and closes it. Begin at serving.rt.
#![tactic(auto)]

mod handing;
mod room;
mod running;
mod served;
mod serving;
mod spending;

pub use room::{CallRoom, make_rooms};
pub use script_handlers::region_calls;
pub use served::Served;
pub use serving::serve;
