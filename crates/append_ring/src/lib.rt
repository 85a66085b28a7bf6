//! A bounded ring that the regions push their items into and one consumer pops from, with no lock.
//!
//! Kept true: what was popped of a region is a beginning of what was pushed under its pass, in order, none lost and none twice, and at
//! the close it is all of it. Nothing is said of items of different regions, nor that a call returns.
#![tactic(auto)]

mod acts;
mod closing;
mod item;
mod keys;
mod knows;
mod law;
mod memory;
mod opening;
mod pass;
mod ring;

pub use item::OfRegion;
pub use keys::RingKeys;
pub use knows::Knows;
pub use law::Law;
pub use memory::NoMemory;
pub use opening::RingParts;
pub use pass::{ConsumerPass, RingKey};
pub use ring::{Full, Ring};
