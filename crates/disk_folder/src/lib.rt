//! The outside as it is: a store in a real folder, and standard input and output.
//!
//! A proof knows of them that they are safe to call, that a fault is counted, and nothing of what they hold: that a real
//! folder keeps what it was given, as the disk's meaning says, is a premise of whoever uses one. What the adapters do is
//! written to meet that premise: each write is positioned and whole, a sync pins content and name, and a settle is the
//! folder's own sync.
#![tactic(auto)]

mod calls;
mod disk;
mod entries;
mod fault;
mod folder;
mod holding;
mod laws;
mod limits;
mod mending;
mod open_files;
mod spelling;
mod streams;

pub use folder::{Access, FolderDisk};
pub use laws::one_name;
pub use spelling::{Spelled, name_of};
pub use streams::{ReaderSource, WriterSink};
