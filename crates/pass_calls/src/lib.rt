//! The calls of one handler on one region, over the region's lock and the log: put, flush and roll.
//!
//! No lock is held in a disk call, at the gate, nor while a call waits for the log.
#![tactic(auto)]

mod drawing;
mod ending;
mod flush;
mod holding;
mod preparing;
mod put;
mod roll;
mod waiting;

pub use flush::flush_in;
pub use preparing::prepare;
pub use put::put_in;
pub use region_lock;
pub use region_lock::log_service;
pub use roll::roll_in;
