//! One log with its numbers on one disk: the current log file, the closed ones, and the regions' store files.
//!
//! Entries are staged, `sync` makes them durable, `roll` goes on to the next file, `flush` puts a region's entries into a
//! store file, and `archive` takes wholly flushed logs away. At each moment of each call every crash image recovers to
//! the files as they read with the first of the staged entries, and after an Ok with all of them. The three numbers of a
//! region, `synced`, `stored` and `closed`, say what is so of every image from then on. The first fault breaks a device,
//! and a broken device makes no disk call.
//!
//! A device works on one thread. It opens no store: what a crash left is recovered before it is started.
#![tactic(auto)]

mod archiving;
mod device;
mod error;
mod flushing;
mod laws;
mod next;
mod opening;
mod renaming;
mod rolling;
mod staging;

pub use device::Device;
pub use error::{
    DeviceFlush, DeviceRefusal, DeviceWhy, RollRefusal, Rolled, StageFull, WriteFault,
};
pub use laws::borne_names_are_sound;
pub use log_ledger::RegionBase;
pub use log_trucks::Truck;
