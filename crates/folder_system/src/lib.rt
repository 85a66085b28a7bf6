//! A folder of files as a disk, over the calls of the operating system: what is assumed is what each call of the system does.
#![tactic(auto)]

mod changing;
mod disk;
mod fault;
mod looking;
mod open_files;
mod opening;
mod pinning;
mod system;
mod system_disk;

pub use system::System;
pub use system_disk::SystemDisk;
