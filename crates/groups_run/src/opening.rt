//! Several stores are opened as groups.

ghost use Rattle.std.specs.Prelude.{◌≡◌, ◌≤◌, IsTrue, IfOk, IfErr, OnOk};
ghost use Rattle.group_calls.specs.group_servers.Beginning.{IsOpened, disks_left};
ghost use Rattle.group_calls.specs.group_servers.group_lists.Lists.{AtEach, count_of};
ghost use Rattle.group_calls.specs.group_servers.Refusals.{GoesOn, HaveNoOthers, AreRefused};

use disk_images::Disk;
use group_calls::group_servers::{GroupList, GroupsRefusal, begin_each, recover_groups};
use group_calls::region_calls::OpenedStore;
use std::alloc::Global;

/// Opens a store on each disk, for regions 1 to `regions` and handlers 1 to `handlers`: recovers each disk, one after the other; looks whether one
/// has something of another group's region; and begins a log on each. A crash at any moment is answered by opening again. Each disk that
/// was recovered stays so where the opening is refused.
pub fn open_groups<D: Disk>(
    alloc: Global,
    disks: GroupList<D>,
    regions: u32,
    handlers: u32,
) -> Result<GroupList<OpenedStore<D>>, GroupsRefusal<D>>
    requires regions { (1 ≤ regions) × (regions ≤ 64) }
    requires handlers { (1 ≤ handlers) × (handlers ≤ 16) }

    // Of each disk: its store is opened for these regions and handlers, and its files were sound.
    ensures opened { IfOk result (λ opened. AtEach (IsOpened D.Disk regions handlers) disks opened) }
    ensures count { IfOk result (λ opened. count_of opened ≡ count_of disks) }
    // At each moment each image is one of the first moment, or is fit and recovers alike for every region; no count of faults falls.
    ensures goes_on { AtEach (GoesOn D.Disk) disks (disks_left result) }
    // No disk has something of another group's region.
    ensures none_of_others { IsTrue D.told → OnOk result (HaveNoOthers D.Disk disks) }
    // Of which disk it is told: a disk fault only where its count rose; damage only where its files aren't sound; a wrong group where it is the
    // first that has something of another group's region, with the least such region; and that the disks before it are sound.
    ensures refused { IfErr result (λ e. AreRefused D.Disk disks e.disks e.why e.disk) }
{
    let mut disks = disks;
    match recover_groups(alloc, &mut disks) {
        Ok(stores) => begin_each(alloc, stores, disks, regions, handlers),
        Err(refusal) => Err(GroupsRefusal {
            why: refusal.why,
            disk: refusal.disk,
            disks,
        }),
    }
}
