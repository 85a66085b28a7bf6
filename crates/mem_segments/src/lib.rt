//! Numbered cells in order, which the versions of a region share: segments, what is merged of them, and walks over
//! several of them in one order. No byte of a cell is copied once a segment has it. Which segments a version has is
//! decided above.
#![tactic(auto)]

mod cursor;
mod draft;
mod layers;
mod merge_iter;
mod merging;
mod ordering;
mod page;
mod rest;
mod row;
mod segment;
mod shared;
mod shared_cell;
mod sort_key;

pub use cursor::Cursor;
pub use draft::Draft;
pub use layers::{SegmentList, few_segments};
pub use merge_iter::MergeIter;
pub use merging::merge;
pub use page::Page;
pub use row::Row;
pub use segment::{Base, Segment};
pub use shared::SharedCells;
