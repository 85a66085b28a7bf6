//! The stores of groups are recovered and looked at.

ghost use Rattle.std.specs.Prelude.{◌≡◌, IsTrue, IfOk, IfErr, OnOk};
ghost use Rattle.group_lists.specs.Lists.{AtEach};
ghost use Rattle.group_servers.specs.Recovering.{IsRecovered, IsFoundAs};
ghost use Rattle.group_servers.specs.Refusals.{GoesOn, HaveNoOthers, AreRefused};

use crate::checking::first_wrong;
use crate::recovering::{FoundStore, StoresRefusal, recover_each};
use crate::refusal::GroupsWhy;
use disk_images::Disk;
use group_lists::GroupList;
use std::alloc::Global;

/// Recovers the stores on these disks, one after the other, and then looks whether one has something of another group's region: of group 1's disk,
/// group 2's, and so on. A crash at any moment is answered by doing it again. Each disk that was recovered stays so where it refuses.
pub fn recover_groups<D: Disk>(
    alloc: Global,
    disks: &mut GroupList<D>,
) -> Result<GroupList<FoundStore<D>>, StoresRefusal>
    // At each moment each image is one of the first moment, or is fit and recovers alike for every region; no count of faults falls.
    ensures goes_on { AtEach (GoesOn D.Disk) disks.old disks.new }
    // Of each disk: it was found as it was, its files were sound, and a log may be begun on it.
    ensures found { IfOk result (λ stores. AtEach IsFoundAs stores disks.old) }
    ensures recovered { IfOk result (λ stores. AtEach (IsRecovered D.Disk) stores disks.new) }
    // No disk has something of another group's region.
    ensures none_of_others { IsTrue D.told → OnOk result (HaveNoOthers D.Disk disks.old) }
    // Of which disk it is told: a disk fault only where its count rose; damage only where its files aren't sound; a wrong group only where it is the
    // first that has something of another group's region, with the least such region; and that the disks before it are sound.
    ensures refused { IfErr result (λ e. AreRefused D.Disk disks.old disks.new e.why e.disk) }
{
    let groups = disks.count();
    let stores = match recover_each(alloc, disks) {
        Ok(stores) => stores,
        Err(refusal) => return Err(refusal),
    };
    match first_wrong(&stores, groups) {
        Some(wrong) => Err(StoresRefusal {
            why: GroupsWhy::WrongGroup {
                region: wrong.region,
            },
            disk: wrong.disk,
        }),
        None => Ok(stores),
    }
}
