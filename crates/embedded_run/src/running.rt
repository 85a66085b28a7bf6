//! The call of a program.

ghost use Rattle.std.specs.Prelude.{◌≤◌, ◌<◌, ◌^◌, IsTrue, vec_len};
ghost use Rattle.run_model.specs.Headline.{KeepsThroughout};
ghost use Rattle.embedded_run.specs.Ends.{HasEnded, HasEndCause, disk_of};

use crate::handler::Handler;
use crate::outcome::Outcome;
use crate::serving::serve;
use disk_images::Disk;
use embedded::region_calls::{StartRefusal, open};
use std::alloc::Global;
use std::marker::Brand;
use std::sync::Wait;
use std::thread::Threads;

/// Opens the store on this disk for regions 1 to `regions`, lets each handler work in a thread of its own, and closes the store. Handlers are
/// numbered from 1 on. `time` is that of each put's entry, in milliseconds. What a crash left of an earlier run is found again: an opening
/// recovers it, and an empty disk is a store without cells.
pub fn run_handlers<R: Threads + Wait + Sync, D: Disk + Send, H: Handler + Drop + Send + Sync>(
    rt: &R,
    alloc: Global,
    disk: D,
    time: u64,
    regions: u32,
    handlers: Vec<H>,
) -> Outcome<D, H>
    requires time { time < 2 ^ 63 }
    requires regions { (1 ≤ regions) × (regions ≤ 64) }
    requires handlers { (1 ≤ vec_len handlers) × (vec_len handlers ≤ 16) }
    // What each handler did, by its own words; the one journal of each region, in which all that they learnt meets; and, on a disk that tells,
    // that this journal is in each image of the disk left, with all that was receipted.
    ensures ends { HasEnded D.Disk H.did time regions disk handlers.items result }
    // At each moment a crash leaves an image of the disk as found, or the cells that were found; former moments stay.
    ensures any_moment { IsTrue D.told → KeepsThroughout (D.view disk) (D.view (disk_of result)) }
    ensures cause { HasEndCause D.faults (D.faults disk) result }
    ensures later { D.faults disk ≤ D.faults (disk_of result) }
{
    let count = handlers.len() as u32;
    match open(alloc, disk, regions, count) {
        Ok(opened) => serve::<Brand, R, D, H>(rt, alloc, opened, time, handlers),
        Err(StartRefusal { why, disk }) => Outcome::Unopened {
            why,
            disk,
            handlers,
        },
    }
}
