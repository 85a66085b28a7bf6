//! A ware that one seat at a time takes out of its slot by one exchange, and beside it the synced number of each region and a fault word.
//!
//! Kept true: a turn is the ware's sole owner. No synced word is above the ware's durable number of its region, none ever falls, and from
//! the moment that the fault word is 1 they stand. A ware at home is broken exactly where the fault word is 1. No call waits. Nothing is
//! said of who gets the turn, nor that a turn is given back.
#![tactic(auto)]

mod acts;
mod berth;
mod closing;
mod known;
mod law;
mod opening;
mod seats;
mod synced;
mod ware;

pub use berth::{Berth, Busy, Turn};
pub use closing::Berthed;
pub use known::{Known, Tally};
pub use law::Law;
pub use opening::{BerthParts, BerthRefusal};
pub use seats::{LogSeat, LogSeats};
pub use synced::SyncedList;
pub use ware::Ware;
