//! On each group's disk a log is begun.

ghost use Rattle.std.specs.Prelude.{◌≡◌, ◌≤◌, Some, IfOk, IfErr};
ghost use Rattle.std.specs.Option.{option_map};
ghost use Rattle.handler_threads.specs.region_calls.Store.{disk_now};
ghost use Rattle.group_servers.specs.Beginning.{IsOpenedFrom, IsUnbegunFrom, HasGoneOn, TellsFrom, disks_left, why_start};
ghost use Rattle.group_lists.specs.Lists.{AtBoth, AtEach, OfBoth, at_group};
ghost use Rattle.group_servers.specs.Recovering.{IsRecovered};
ghost use Rattle.group_servers.specs.Refusals.{IsNotWrong};

use crate::recovering::FoundStore;
use crate::refusal::{GroupsRefusal, GroupsWhy};
use disk_images::Disk;
use group_lists::GroupList;
use handler_threads::region_calls::{OpenedStore, StartRefusal, StartWhy, begin_recovered};
use std::alloc::Global;

/// A disk on which no log was begun, and why.
struct Unbegun<D> {
    why: GroupsWhy,
    disk: D,
}

/// Why, of what begins a log on a disk.
fn start_why(why: StartWhy) -> GroupsWhy
    ensures { result ≡ why_start why }
{
    match why {
        StartWhy::Memory => GroupsWhy::Memory,
        StartWhy::DiskFault => GroupsWhy::DiskFault,
        StartWhy::Damaged(damage) => GroupsWhy::Damaged(damage),
    }
}

/// Begins a log on a store's disk.
fn begin_one<D: Disk>(
    alloc: Global,
    store: FoundStore<D>,
    disk: D,
    regions: u32,
    handlers: u32,
) -> Result<OpenedStore<D>, Unbegun<D>>
    requires recovered { IsRecovered D.Disk store disk }
    requires regions { (1 ≤ regions) × (regions ≤ 64) }
    requires handlers { (1 ≤ handlers) × (handlers ≤ 16) }
    ensures opened { IfOk result (λ o. IsOpenedFrom D.Disk regions handlers store o) }
    ensures refused { IfErr result (λ e. IsUnbegunFrom D.Disk store e) }
{
    let FoundStore { found, recovered } = store;
    match begin_recovered(alloc, found, disk, recovered, regions, handlers) {
        Ok(opened) => Ok(opened),
        Err(StartRefusal { why, disk }) => Err(Unbegun {
            why: start_why(why),
            disk,
        }),
    }
}

/// The same where there is one.
fn begin_at<D: Disk>(
    alloc: Global,
    store: Option<FoundStore<D>>,
    disk: Option<D>,
    regions: u32,
    handlers: u32,
) -> Result<Option<OpenedStore<D>>, Unbegun<D>>
    requires recovered { AtBoth (IsRecovered D.Disk) store disk }
    requires regions { (1 ≤ regions) × (regions ≤ 64) }
    requires handlers { (1 ≤ handlers) × (handlers ≤ 16) }
    ensures opened { IfOk result (λ o. AtBoth (IsOpenedFrom D.Disk regions handlers) store o) }
    ensures refused { IfErr result (λ e. OfBoth (IsUnbegunFrom D.Disk) store (Some e)) }
{
    match disk {
        None => Ok(None),
        Some(disk) => match store {
            None => unreachable!(),
            Some(store) => match begin_one(alloc, store, disk, regions, handlers) {
                Ok(opened) => Ok(Some(opened)),
                Err(refusal) => Err(refusal),
            },
        },
    }
}

/// Gives a store's disk back, where there is one.
pub fn disk_at<D>(opened: Option<OpenedStore<D>>) -> Option<D>
    ensures { result ≡ option_map disk_now opened }
{
    match opened {
        None => None,
        Some(opened) => Some(opened.into_disk()),
    }
}

/// A refusal at the disk of this number.
fn refused<D>(disk: u32, why: GroupsWhy, disks: GroupList<D>) -> GroupsRefusal<D>
    ensures { result ≡ (record { why = why; disk = disk; disks = disks }) }
{
    GroupsRefusal { why, disk, disks }
}

/// Begins a log on each of these disks, which were recovered, for regions 1 to `regions` and handlers 1 to `handlers`: one after the other, up to the
/// first that is refused. A log that was begun is let go then.
pub fn begin_each<D: Disk>(
    alloc: Global,
    stores: GroupList<FoundStore<D>>,
    disks: GroupList<D>,
    regions: u32,
    handlers: u32,
) -> Result<GroupList<OpenedStore<D>>, GroupsRefusal<D>>
    requires recovered { AtEach (IsRecovered D.Disk) stores disks }
    requires regions { (1 ≤ regions) × (regions ≤ 64) }
    requires handlers { (1 ≤ handlers) × (handlers ≤ 16) }
    ensures opened { IfOk result (λ o. AtEach (IsOpenedFrom D.Disk regions handlers) stores o) }
    ensures goes_on { AtEach (HasGoneOn D.Disk) stores (disks_left result) }
    // Of which disk it is told, and it tells of no other group's region.
    ensures tells { IfErr result (λ e. OfBoth (TellsFrom D.Disk e.why) (at_group stores e.disk) (at_group e.disks e.disk)) }
    ensures right { IfErr result (λ e. IsNotWrong e.why) }
{
    let first = match begin_one(alloc, stores.first, disks.first, regions, handlers) {
        Ok(opened) => opened,
        Err(Unbegun { why, disk }) => {
            let left = GroupList::of(disk, disks.second, disks.third, disks.fourth);
            return Err(refused(1, why, left));
        }
    };
    let second = match begin_at(alloc, stores.second, disks.second, regions, handlers) {
        Ok(opened) => opened,
        Err(Unbegun { why, disk }) => {
            let first = first.into_disk();
            let left = GroupList::of(first, Some(disk), disks.third, disks.fourth);
            return Err(refused(2, why, left));
        }
    };
    let third = match begin_at(alloc, stores.third, disks.third, regions, handlers) {
        Ok(opened) => opened,
        Err(Unbegun { why, disk }) => {
            let first = first.into_disk();
            let second = disk_at(second);
            let left = GroupList::of(first, second, Some(disk), disks.fourth);
            return Err(refused(3, why, left));
        }
    };
    match begin_at(alloc, stores.fourth, disks.fourth, regions, handlers) {
        Ok(fourth) => Ok(GroupList {
            first,
            second,
            third,
            fourth,
        }),
        Err(Unbegun { why, disk }) => {
            let first = first.into_disk();
            let second = disk_at(second);
            let third = disk_at(third);
            let left = GroupList::of(first, second, third, Some(disk));
            Err(refused(4, why, left))
        }
    }
}
