//! What is flushed of each family of each region and what was noted of it, and which closed files are wholly flushed. It
//! stands on one thread, and takes memory only where it says so: a batch brings the memory for its own families
//! (`FamilyMarks`), so that noting its entry takes none.
//!
//! Begin with `Accounting`.
#![tactic(auto)]

mod accounting;
mod closed;
mod error;
mod families;
mod flushed;
mod flushing;
mod laws;
mod mark;
mod marks;
mod numbers;
mod region;
mod regions;

pub use accounting::Accounting;
pub use error::NoMemory;
pub use families::FamilyMarks;
pub use flushing::{FlushRoom, Flushing};
pub use laws::{flush_is_counted, flushes_are_few, note_is_counted};
pub use region::{PLACES, RegionMark};
