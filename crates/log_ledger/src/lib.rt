//! The numbers of one log's device: what was staged, committed, flushed and stored of each region, the accounting by
//! log file, and the trucks of unflushed entries. It touches no disk: it is told what was done there.
#![tactic(auto)]

mod base;
mod flushing;
mod laws;
mod ledger;
mod rolling;
mod staging;

pub use base::RegionBase;
pub use laws::few_stores_are_few;
pub use ledger::Ledger;
