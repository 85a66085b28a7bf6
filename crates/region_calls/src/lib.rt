//! A region server: the opening of a store, the passes of its handlers, and its calls.
#![tactic(auto)]

mod apart;
mod calls;
mod closed;
mod closing;
mod dealing;
mod giving;
mod hands;
mod helpers;
mod meeting;
mod naming;
mod opening;
mod pass;
mod passes;
mod putting;
mod reading;
mod refusal;
mod room;
mod seeds;
mod server;
mod sowing;
mod starting;
mod store;
mod taking;
mod unlocked;
mod wording;

pub use closed::{CloseRefusal, ClosedRegion, ClosedServer};
pub use helpers::Helpers;
pub use mem_segments::Page;
pub use naming::ServerNaming;
pub use opening::{begin_recovered, open};
pub use pass::Pass;
pub use pass_calls::log_service::log_device::{RollRefusal, Rolled};
pub use pass_calls::log_service::{Helped, LogSeat};
pub use pass_calls::region_lock::{FlushRefusal, FreeGate, Gate, PutRefusal, ScanReply};
pub use pass_calls::{log_service, region_lock};
pub use passes::Passes;
pub use refusal::{StartRefusal, StartWhy};
pub use region_state::Scanner;
pub use server::Server;
pub use starting::Started;
pub use store::OpenedStore;
