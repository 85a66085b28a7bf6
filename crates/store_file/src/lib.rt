//! Store files of a region's flushed cells in order, each there whole or not at all.
//!
//! A file is begun with a closed gate, filled cell by cell, and `commit` makes it durable and opens the gate: at each
//! moment a crash leaves the whole store, or a file that isn't there. `read_store` gives back what stands in one, or
//! where it is damaged. Files are written as `HWS2`, with the cells' tags, the scope 0 and the name of a family, which may
//! be empty; those of `HWS1`, which have none of these, are read too.
//!
//! A store file doesn't choose its name, and doesn't put cells in order: that is its caller's part.
#![tactic(auto)]

mod buffer;
mod commit;
mod file;
mod laws;
mod list;
mod read;
mod reading;

pub use file::StoreFile;
pub use file_base::{DiskFault, FileRefusal, ReadRefusal};
pub use laws::{store_damage_is_one, store_text_is_not_damaged, store_text_is_one};
pub use list::StoreText;
pub use read::read_store;
