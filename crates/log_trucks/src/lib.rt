//! Trucks: log entries on their way to a store, each in a box of its own. A chain of trucks grows and goes without
//! taking memory, and is let go by a loop, however long it is.
#![tactic(auto)]

mod chain;
mod chains;
mod truck;

pub use chain::Chain;
pub use chains::Chains;
pub use truck::Truck;
