//! Log files whose entries survive a crash.
//!
//! A file is begun, entries are staged, and `commit` makes the staged ones durable together: at each moment a crash
//! leaves the entries before, or these and the whole batch. `finish` writes an end frame. `read_log` gives back what
//! stands in a file, or where it is damaged. Files are written in version 2, and those of version 1 are read too.
//!
//! A log file doesn't know which sequence ids its entries have, and doesn't choose names: that is its caller's part.
#![tactic(auto)]

mod file;
mod list;
mod read;
mod stage;
mod text;

pub use file::LogFile;
pub use file_base::{DiskFault, FileRefusal, ReadRefusal};
pub use list::{EntryList, LogText};
pub use read::read_log;
pub use stage::{STAGE_BYTES, Stage, StageFull};
