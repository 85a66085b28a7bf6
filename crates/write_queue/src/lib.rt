//! The write numbers of a region in the order in which they are drawn, and the read point: the greatest number up to
//! which every write is completed, in whatever order writes end. It stands on one thread and knows nothing of edits.
#![tactic(auto)]

mod entry;
mod error;
mod queue;

pub use entry::WriteEntry;
pub use error::NoMemory;
pub use queue::WriteQueue;
