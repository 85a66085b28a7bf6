//! The handlers of a script are run on several stores.

ghost use Rattle.std.specs.Prelude.{◌≡◌, ◌≤◌, ℕ, IsTrue};
ghost use Rattle.script_model.specs.Calls.{IsScript};
ghost use Rattle.run_model.specs.Headline.{KeepsThroughout};
ghost use Rattle.groups_model.specs.Groups.{IsGroup};
ghost use Rattle.groups_run.specs.group_servers.group_lists.Lists.{count_of};
ghost use Rattle.groups_run.specs.Found.{value_of, views};
ghost use Rattle.groups_command.specs.Disks.{AreInARow, OfEach};
ghost use Rattle.groups_command.specs.Carried.{disks_of, HaveRan, HaveRanCause};

use crate::ran::GroupsRan;
use disk_images::Disk;
use groups_run::group_servers::{GroupList, GroupsRefusal};
use groups_run::region_calls::Gate;
use groups_run::script_run::make_rooms;
use groups_run::{GroupsServed, open_groups, serve_groups};
use script_calls::Script;
use std::alloc::Global;
use std::marker::Brand;
use std::sync::Wait;
use std::thread::Threads;

/// Opens a store on each disk, runs each handler of the script in a thread of its own, and closes the stores.
pub fn carry_out_groups<R: Threads + Wait + Sync, D: Disk + Send, G: Gate + Sync>(
    rt: &R,
    alloc: Global,
    script: Script,
    disks: GroupList<D>,
    gate: &G,
) -> GroupsRan<D>
    requires script { IsScript script }
    requires row { AreInARow disks }
    ensures ran { IsTrue D.told → HaveRan D.view D.faults script disks result }
    // At each moment a crash leaves on each disk an image of it as found, or the cells that were found; former moments stay.
    ensures any_moment { IsTrue D.told → OfEach (count_of disks) KeepsThroughout (views D.view disks) (views D.view (disks_of result)) }
    ensures cause { HaveRanCause D.faults disks result }
    ensures later { (k : ℕ) → IsGroup (count_of disks) k → D.faults (value_of disks k) ≤ D.faults (value_of (disks_of result) k) }
    ensures as_many { count_of (disks_of result) ≡ count_of disks }
{
    let Script {
        time,
        regions,
        handlers,
    } = script;
    let count = handlers.len() as u32;
    let Ok(rooms) = make_rooms(alloc, handlers) else {
        return GroupsRan::Left { disks };
    };
    match open_groups(alloc, disks, regions, count) {
        Ok(opened) => {
            match serve_groups::<Brand, Brand, Brand, Brand, R, D, G>(
                rt, alloc, opened, time, rooms, gate,
            ) {
                GroupsServed::Closed {
                    disks,
                    regions,
                    replies,
                    spent,
                    broken,
                } => GroupsRan::Closed {
                    disks,
                    regions,
                    replies,
                    spent,
                    broken,
                },
                GroupsServed::Left { disks } => GroupsRan::Left { disks },
            }
        }
        Err(GroupsRefusal { why, disk, disks }) => GroupsRan::NotOpened { why, disk, disks },
    }
}
