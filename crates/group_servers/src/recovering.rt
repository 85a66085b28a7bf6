//! Each group's store is recovered.

ghost use Rattle.std.specs.Prelude.{◌≡◌, ℕ, IsTrue, IfOk, IfErr};
ghost use Rattle.group_lists.specs.Lists.{AtBoth, AtEach, OfBoth, at_group};
ghost use Rattle.group_servers.specs.Recovering.{IsRecovered, IsFoundAs};
ghost use Rattle.group_servers.specs.Refusals.{GoesOn, Tells, IsNotWrong, AreSoundBelow};

use crate::refusal::{GroupsWhy, split_why};
use disk_images::Disk;
use group_lists::GroupList;
use region_replay::{Recovered, recover_all};
use std::alloc::Global;
use std::snapshot::Snapshot;

/// A store that was recovered: its regions, and its disk as it was found, for contracts alone.
#[derive(Drop)]
pub struct FoundStore<D> {
    pub found: Snapshot<D>,
    pub recovered: Recovered,
}

/// Why stores were refused, and the number of the disk that it is told of, from 1 on.
#[derive(Drop)]
pub struct StoresRefusal {
    pub why: GroupsWhy,
    pub disk: u32,
}

/// Recovers a store.
fn recover_one<D: Disk>(alloc: Global, disk: &mut D) -> Result<FoundStore<D>, GroupsWhy>
    ensures goes_on { GoesOn D.Disk disk.old disk.new }
    ensures found { IfOk result (λ store. IsFoundAs store disk.old) }
    ensures recovered { IfOk result (λ store. IsRecovered D.Disk store disk.new) }
    ensures tells { IfErr result (λ why. Tells D.Disk why disk.old disk.new) }
    ensures right { IfErr result (λ why. IsNotWrong why) }
{
    let found = Snapshot::of(disk);
    match recover_all(alloc, disk) {
        Ok(recovered) => Ok(FoundStore { found, recovered }),
        Err(refusal) => Err(split_why(refusal)),
    }
}

/// The same where there is one.
fn recover_at<D: Disk>(
    alloc: Global,
    disk: &mut Option<D>,
) -> Result<Option<FoundStore<D>>, GroupsWhy>
    ensures goes_on { AtBoth (GoesOn D.Disk) disk.old disk.new }
    ensures found { IfOk result (λ store. AtBoth IsFoundAs store disk.old) }
    ensures recovered { IfOk result (λ store. AtBoth (IsRecovered D.Disk) store disk.new) }
    ensures tells { IfErr result (λ why. OfBoth (Tells D.Disk why) disk.old disk.new) }
    ensures right { IfErr result (λ why. IsNotWrong why) }
{
    match disk {
        None => Ok(None),
        Some(disk) => match recover_one(alloc, disk) {
            Ok(store) => Ok(Some(store)),
            Err(why) => Err(why),
        },
    }
}

/// Recovers the stores, one after the other, up to the first that is refused.
pub(crate) fn recover_each<D: Disk>(
    alloc: Global,
    disks: &mut GroupList<D>,
) -> Result<GroupList<FoundStore<D>>, StoresRefusal>
    ensures goes_on { AtEach (GoesOn D.Disk) disks.old disks.new }
    ensures found { IfOk result (λ stores. AtEach IsFoundAs stores disks.old) }
    ensures recovered { IfOk result (λ stores. AtEach (IsRecovered D.Disk) stores disks.new) }
    ensures tells { IfErr result (λ e. OfBoth (Tells D.Disk e.why) (at_group disks.old e.disk) (at_group disks.new e.disk)) }
    ensures right { IfErr result (λ e. IsNotWrong e.why) }
    ensures before { IsTrue D.told → IfErr result (λ e. AreSoundBelow D.Disk disks.old e.disk) }
{
    let first = match recover_one(alloc, &mut disks.first) {
        Ok(store) => store,
        Err(why) => return Err(StoresRefusal { why, disk: 1 }),
    };
    let second = match recover_at(alloc, &mut disks.second) {
        Ok(store) => store,
        Err(why) => return Err(StoresRefusal { why, disk: 2 }),
    };
    let third = match recover_at(alloc, &mut disks.third) {
        Ok(store) => store,
        Err(why) => return Err(StoresRefusal { why, disk: 3 }),
    };
    let fourth = match recover_at(alloc, &mut disks.fourth) {
        Ok(store) => store,
        Err(why) => return Err(StoresRefusal { why, disk: 4 }),
    };
    Ok(GroupList {
        first,
        second,
        third,
        fourth,
    })
}
