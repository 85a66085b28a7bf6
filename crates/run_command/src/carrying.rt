//! The handlers of a script are run on a store.

ghost use Rattle.std.specs.Prelude.{◌≤◌, IsTrue};
ghost use Rattle.script_model.specs.Calls.{IsScript};
ghost use Rattle.run_model.specs.Headline.{KeepsThroughout};
ghost use Rattle.run_command.specs.Carried.{disk_of, HasRan, HasRanCause};

use disk_images::Disk;
use run_model::Spent;
use script_calls::{ReplyLines, Script};
use script_run::region_calls::{ClosedRegion, Gate, StartRefusal, StartWhy, open};
use script_run::{Served, make_rooms, serve};
use std::alloc::Global;
use std::marker::Brand;
use std::sync::Wait;
use std::thread::Threads;

/// What is left of a script that was run.
pub enum Ran<D> {
    /// The handlers have returned and the server is closed: its regions in order, the replies of each handler, the first put
    /// that found no sequence id left, and whether a fault ended the log.
    Closed {
        disk: D,
        regions: Vec<ClosedRegion>,
        replies: Vec<ReplyLines>,
        spent: Option<Spent>,
        broken: bool,
    },
    /// No memory was found to start it or to close it.
    Left {
        disk: D,
    },
    /// The store could not be opened.
    NotOpened {
        why: StartWhy,
        disk: D,
    },
}

/// Opens the store, runs each handler of the script in a thread of its own, and closes the store.
pub fn carry_out<R: Threads + Wait + Sync, D: Disk + Send, G: Gate + Sync>(
    rt: &R,
    alloc: Global,
    script: Script,
    disk: D,
    gate: &G,
) -> Ran<D>
    requires { IsScript script }
    ensures ran { IsTrue D.told → HasRan D.view script (D.view disk) result }
    // At each moment a crash leaves an image of the disk as found, or the cells that were found; former moments stay.
    ensures any_moment { IsTrue D.told → KeepsThroughout (D.view disk) (D.view (disk_of result)) }
    ensures cause { HasRanCause D.faults (D.faults disk) result }
    ensures later { D.faults disk ≤ D.faults (disk_of result) }
{
    let Script {
        time,
        regions,
        handlers,
    } = script;
    let count = handlers.len() as u32;
    let Ok(rooms) = make_rooms(alloc, handlers) else {
        return Ran::Left { disk };
    };
    match open(alloc, disk, regions, count) {
        Ok(opened) => {
            match serve::<Brand, R, D, G>(rt, alloc, opened, time, rooms, gate) {
                Served::Closed {
                    disk,
                    regions,
                    replies,
                    spent,
                    broken,
                } => Ran::Closed {
                    disk,
                    regions,
                    replies,
                    spent,
                    broken,
                },
                Served::Left { disk } => Ran::Left { disk },
            }
        }
        Err(StartRefusal { why, disk }) => Ran::NotOpened { why, disk },
    }
}
