//! A script is run on stores that are opened as groups.

ghost use Rattle.std.specs.Prelude.{◌≡◌, ℕ, IsTrue, vec_len};
ghost use Rattle.script_model.specs.Calls.{IsScript};
ghost use Rattle.run_model.specs.Closed.{IsNameFor};
ghost use Rattle.run_model.specs.Headline.{KeepsThroughout};
ghost use Rattle.group_calls.specs.region_calls.Store.{disk_now, regions_of, handlers_of};
ghost use Rattle.script_run.specs.Rooms.{AreRooms, script_in};
ghost use Rattle.groups_model.specs.Groups.{IsGroup};
ghost use Rattle.group_calls.specs.group_servers.group_lists.Lists.{count_of, mapped};
ghost use Rattle.group_calls.specs.group_servers.Starting.{IsNamedBy, IsNamedAt};
ghost use Rattle.group_calls.specs.Passes.{named};
ghost use Rattle.groups_run.specs.Starting.{AreAlike};
ghost use Rattle.groups_run.specs.Found.{AreFound, views, found_views, faults_now};
ghost use Rattle.groups_run.specs.Ends.{AreServed, HaveCounts, disks_left};

use crate::closing::GroupsClosed;
use crate::served::GroupsServed;
use crate::started::{RunEnd, make_room, run_started};
use crate::starting::start_groups;
use disk_images::Disk;
use group_calls::group_servers::{GroupList, GroupsRefusal, disk_at};
use group_calls::handler_threads::ServerName;
use group_calls::region_calls::{Gate, OpenedStore};
use kv_cell::NoMemory;
use script_run::CallRoom;
use std::alloc::Global;
use std::sync::Wait;
use std::thread::Threads;

/// The disks of opened stores, as they are.
fn disks_of<D: Disk>(opened: GroupList<OpenedStore<D>>) -> GroupList<D>
    ensures { result ≡ mapped disk_now opened }
{
    let GroupList {
        first,
        second,
        third,
        fourth,
    } = opened;
    let second = disk_at(second);
    let third = disk_at(third);
    let fourth = disk_at(fourth);
    GroupList::of(first.into_disk(), second, third, fourth)
}

/// Runs the handlers, and closes the servers. Between their start and their close no memory is taken but by the handlers' calls.
pub fn serve_groups<
    N1: ServerName + Send + Sync,
    N2: ServerName + Send + Sync,
    N3: ServerName + Send + Sync,
    N4: ServerName + Send + Sync,
    R: Threads + Wait + Sync,
    D: Disk + Send,
    G: Gate + Sync,
>(
    rt: &R,
    alloc: Global,
    opened: GroupList<OpenedStore<D>>,
    time: u64,
    rooms: Vec<CallRoom>,
    gate: &G,
) -> GroupsServed<D>
    // The script, and that the stores were opened for it.
    requires rooms { AreRooms rooms.items }
    requires script { IsScript (script_in time (regions_of opened.first) rooms.items) }
    requires few { handlers_of opened.first ≡ vec_len rooms }
    requires alike { AreAlike opened }
    requires found { IsTrue D.told → AreFound D.Disk opened }
    // The names are the stores', and the script's.
    requires named_1 { IsNamedBy D.Disk N1.ServerNaming N1.LockNaming N1.ServiceNaming N1.VersionsNaming opened.first }
    requires named_2 { IsNamedAt D.Disk N2.ServerNaming N2.LockNaming N2.ServiceNaming N2.VersionsNaming opened.second }
    requires named_3 { IsNamedAt D.Disk N3.ServerNaming N3.LockNaming N3.ServiceNaming N3.VersionsNaming opened.third }
    requires named_4 { IsNamedAt D.Disk N4.ServerNaming N4.LockNaming N4.ServiceNaming N4.VersionsNaming opened.fourth }
    requires fits { (k : ℕ) → IsNameFor (script_in time (regions_of opened.first) rooms.items) (named N1.name N2.name N3.name N4.name k) }

    ensures served { IsTrue D.told → AreServed D.view D.faults (count_of opened) (script_in time (regions_of opened.first) rooms.items)
        (found_views D.view opened) (faults_now D.faults opened) result }
    // At each moment a crash leaves on each group's disk an image of the disk as found, or the cells that were found; former moments stay.
    ensures any_moment { IsTrue D.told → (k : ℕ) → IsGroup (count_of opened) k
        → KeepsThroughout (found_views D.view opened k) (views D.view (disks_left result) k) }
    ensures count { HaveCounts D.faults opened result }
    // No disk is left out.
    ensures as_many { count_of (disks_left result) ≡ count_of opened }
{
    let room = match make_room::<N1, N2, N3, N4>(alloc, rooms.len()) {
        Ok(room) => room,
        Err(NoMemory) => {
            return GroupsServed::Left {
                disks: disks_of(opened),
            };
        }
    };
    let started = match start_groups::<D, N1, N2, N3, N4, R>(rt, alloc, opened) {
        Ok(started) => started,
        Err(
            GroupsRefusal {
                why: _,
                disk: _,
                disks,
            },
        ) => return GroupsServed::Left { disks },
    };
    let RunEnd {
        closed,
        replies,
        spent,
    } = run_started(rt, alloc, started, time, rooms, gate, room);
    let GroupsClosed {
        disks,
        regions,
        broken,
    } = closed;
    match regions {
        None => GroupsServed::Left { disks },
        Some(regions) => GroupsServed::Closed {
            disks,
            regions,
            replies,
            spent,
            broken,
        },
    }
}
