//! The two halves of a log's service: what moves items from the ring into chains, and what commits chains.
//!
//! The consumer's half pops items into a chain and hands chains over, and the device's half commits them. Each is a ware, and lies in a berth
//! of its own in log_service, so that one thread moves items while another one commits. Kept true: the entries of the chains handed over, of
//! the own chain and a held one are the appends popped, in order; while the device isn't broken, what was committed since the start are the
//! entries of the chains popped. No word is raised above what is committed.
#![tactic(auto)]

mod archived;
mod chain;
mod committer;
mod committing;
mod consumer;
mod draining;
mod handing;
mod item;
mod moving;
mod name;
mod raising;
mod settling;
mod staging;
mod starting;

pub use chain::FrameChain;
pub use committer::DeviceHalf;
pub use committing::Commit;
pub use consumer::ConsumerHalf;
pub use item::Item;
pub use moving::Moves;
pub use name::ServiceNaming;
pub use raising::{raise_all, tell_all};
pub use settling::{settle_chains, settle_items};
pub use starting::{Tallies, Written, first_half, second_half};
