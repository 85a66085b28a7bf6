//! Handlers' tokens at a region's lock: a desk stands in the lock, each handler's pass keeps one hand of it, and the
//! desk's record of a hand is the hand's. Records are kept by contracts alone; nothing of them takes memory or time.
#![tactic(auto)]

mod desk;
mod error;
mod hand;
mod known;
mod turns;

pub use desk::{Desk, DeskParts};
pub use error::NoMemory;
pub use hand::{Hand, HandList};
pub use known::{Known, Record};
