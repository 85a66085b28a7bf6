//! What log files and store files have in common: why one cannot be begun, written or read, and that reading one changes
//! nothing. It stands below both, so that neither waits for the other.
#![tactic(auto)]

mod error;

pub use error::{DiskFault, FileRefusal, ReadRefusal};
