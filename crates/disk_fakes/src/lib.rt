//! Disks, sources and sinks in memory, for tests: they tell what they hold, fail where they are told to, and show what
//! a crash may leave. They write nothing to a real disk.
#![tactic(auto)]

mod crash;
mod fail;
mod history;
mod mem_disk;
mod mem_stream;
mod op;
mod piece;
mod safe_call;
mod safe_disk;
mod safe_stream;
mod table;
mod watch_disk;

pub use fail::{CallKind, Fail};
pub use mem_disk::MemDisk;
pub use mem_stream::{MemSink, MemSource};
pub use safe_disk::SafeDisk;
pub use safe_stream::{SafeSink, SafeSource};
pub use watch_disk::WatchDisk;
