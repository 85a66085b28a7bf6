//! A region's cut of cells, written as one store file.
//!
//! `store_cut` and `write_cut` put the cells in order, and `write_segment` writes cells that are in order; `write_rows` does
//! so for a store that was begun, of any scope. At each moment a crash leaves the whole store, or a file that isn't there.
//! Each cell is stored with its tags. Which cells a cut has, of which family they are, and what the store file is called, is
//! decided above.
#![tactic(auto)]

mod cut;
mod filling;
mod laws;

pub use cut::{store_cut, write_cut, write_segment};
pub use filling::write_rows;
pub use laws::cut_holds_its_content;
