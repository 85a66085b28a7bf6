//! The log service: handlers push entries and sync requests, and whoever waits moves them into chains and commits chains.
//!
//! The consumer's half pops items into a chain and hands chains over, and the device's half commits them: both are in log_halves. Each half
//! lies in a berth of its own, so that one thread moves items while another one commits. No word is raised above what is committed. Nothing
//! is said of who takes a turn, nor that a wait ends.
#![tactic(auto)]

mod asking;
mod closing;
mod company;
mod counting;
mod flushing;
mod handing;
mod helping;
mod joining;
mod looking;
mod pairing;
mod resting;
mod rolling;
mod seats;
mod service;
mod starting;
mod tally;
mod turning;
mod waiting;

pub use closing::ServiceClosed;
pub use helping::Helped;
pub use log_device;
pub use log_halves;
pub use log_halves::{
    Commit, ConsumerHalf, DeviceHalf, FrameChain, Item, Moves, ServiceNaming, Written,
};
pub use seats::{LogSeat, LogSeats};
pub use service::LogService;
pub use starting::{Rings, ServiceParts, ServiceRefusal};
pub use tally::{Asked, PutTally, Watch};
pub use turning::{ConsumerTurn, SyncTurn};
pub use waiting::Waited;
