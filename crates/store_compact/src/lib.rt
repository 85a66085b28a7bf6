//! Compaction of a region's store files: their cells, or those that a reader sees, go into one store file, which takes the
//! place of all the others, and then those go. At each moment a crash leaves the region as it was, or compacted.
#![tactic(auto)]

mod compacting;
mod kind;
mod merging;
mod numbering;
mod range;
mod refusal;
mod removing;
mod replacing;
mod writing;

pub use compacting::compact;
pub use kind::{CompactKind, Compacted};
pub use refusal::CompactRefusal;
