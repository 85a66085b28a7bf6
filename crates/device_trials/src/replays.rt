//! Regions that are replayed one by one.

ghost use Rattle.std.specs.Prelude.{◌≡◌, ◌≤◌, OnOk};
ghost use Rattle.log_model.specs.declared.name.NameKind.TheVariants as kinds;
ghost use Rattle.disk_fakes.specs.Views.{view_of};

use crate::files::{File, disk_of, has_files, hold, name_of};
use crate::opened::{Kept, ONE_EDIT, Want, is_kept, kept_at};
use crate::texts::{LOG_1, LOG_2, OTHER_LOG_2, STORE_OF_1, STORE_OF_2};
use crate::versions::OF_BOTH_VERSIONS;
use crate::worked::WORKED;
use disk_fakes::MemDisk;
use disk_images::NameKind;
use found_files::{Damage, SplitRefusal};
use region_replay::replay;
use std::alloc::Global;
use std::test::Fail as TestFail;
use wal_split::split;

/// The least number of a name that is too great.
const TOO_GREAT: u64 = 0x4000_0000_0000_0001;

/// A frame of kind 4.
const OTHER_KIND: &[u8] = &[
    b'H', b'W', b'L', b'1', 0, 0, 0, 2, 0, 0, 0, 0, 0, 0, 0, 1, 0xA5, 4, 0, 0, 0, 0,
];

/// An edits file of region 2 that is damaged, beside another one and one of region 1.
const ONE_DAMAGED: [File; 3] = [
    (NameKind::Edits, 1, 1, LOG_1),
    (NameKind::Edits, 2, 1, OTHER_KIND),
    (NameKind::Edits, 2, 2, LOG_2),
];

/// What is left of them where region 1 was replayed.
const BESIDE_THE_DAMAGED: [File; 3] = [
    (NameKind::Store, 1, 1, STORE_OF_1),
    (NameKind::Edits, 2, 1, OTHER_KIND),
    (NameKind::Edits, 2, 2, LOG_2),
];

const TWO_THAT_DIFFER: [File; 2] = [
    (NameKind::Edits, 1, 1, LOG_1),
    (NameKind::Edits, 1, 2, OTHER_LOG_2),
];

/// Stores whose names an opening refuses.
const GREAT_NUMBERS: [File; 2] = [
    (NameKind::Store, 1, TOO_GREAT, STORE_OF_1),
    (NameKind::Store, 65, 1, STORE_OF_2),
];

/// Replays a region, which is to give this.
fn replays(alloc: Global, disk: &mut MemDisk, region: u32, kept: Kept) -> Result<(), TestFail>
    requires region { (1 ≤ region) × (region ≤ 64) }
    requires stores { (m : _) → m.kind ≡ kinds.Store → ¬ (view_of disk.old).gone m }
    ensures stores { OnOk result ((m : _) → m.kind ≡ kinds.Store → ¬ (view_of disk.new).gone m) }
{
    match replay(alloc, disk, region) {
        Ok(replayed) => hold(is_kept(&replayed, kept), "a region has something else"),
        Err(_) => Err(TestFail::new("it is not replayed")),
    }
}

/// Replays each region of a store that was split.
fn all_replay(alloc: Global, disk: &mut MemDisk, regions: &[Kept]) -> Result<(), TestFail>
    requires { (m : _) → m.kind ≡ kinds.Store → ¬ (view_of disk.old).gone m }
{
    for before in 0..64 {
        let kept = kept_at(regions, before as usize);
        replays(alloc, disk, before + 1, kept)?;
    }
    Ok(())
}

/// Splits a store, and leaves no name of a store gone.
pub(crate) fn split_whole(alloc: Global, disk: &mut MemDisk) -> Result<(), TestFail>
    ensures { OnOk result ((m : _) → m.kind ≡ kinds.Store → ¬ (view_of disk.new).gone m) }
{
    match split(alloc, disk) {
        Ok(_) => Ok(()),
        Err(_) => Err(TestFail::new("it is not split")),
    }
}

/// Replays a region, which is to be refused for this damage.
fn is_damaged(
    alloc: Global,
    disk: &mut MemDisk,
    region: u32,
    damage: Damage,
) -> Result<(), TestFail>
    requires region { (1 ≤ region) × (region ≤ 64) }
    requires stores { (m : _) → m.kind ≡ kinds.Store → ¬ (view_of disk.old).gone m }
{
    let refusal = replay(alloc, disk, region).err();
    let is_so = refusal == Some(SplitRefusal::Damaged(damage));
    hold(is_so, "it is not refused for this damage")
}

/// Splits a store and replays each region: this is to be there then.
fn is_replayed(alloc: Global, files: &[File], want: &Want) -> Result<(), TestFail> {
    let disk = disk_of(alloc, files, &[])?;
    split_whole(alloc, disk)?;
    all_replay(alloc, disk, want.regions)?;
    has_files(alloc, disk, want.files)
}

#[test]
fn split_and_each_region_replayed(rt: HostRuntime) -> Result<(), TestFail> {
    for (files, want) in &WORKED {
        is_replayed(rt.alloc(), files, want)?;
    }
    for (files, want) in &OF_BOTH_VERSIONS {
        is_replayed(rt.alloc(), files, want)?;
    }
    Ok(())
}

#[test]
fn damage_of_the_region_alone(rt: HostRuntime) -> Result<(), TestFail> {
    let alloc = rt.alloc();
    let disk = disk_of(alloc, &ONE_DAMAGED, &[])?;
    replays(alloc, disk, 1, ONE_EDIT)?;
    let damage = Damage::Bytes {
        name: name_of(ONE_DAMAGED[1]),
        at: 16,
    };
    is_damaged(alloc, disk, 2, damage)?;
    has_files(alloc, disk, &BESIDE_THE_DAMAGED)
}

#[test]
fn two_edits_files_that_differ(rt: HostRuntime) -> Result<(), TestFail> {
    let alloc = rt.alloc();
    let disk = disk_of(alloc, &TWO_THAT_DIFFER, &[])?;
    let damage = Damage::Two {
        first: name_of(TWO_THAT_DIFFER[0]),
        second: name_of(TWO_THAT_DIFFER[1]),
        region: 1,
        number: 1,
    };
    is_damaged(alloc, disk, 1, damage)?;
    has_files(alloc, disk, &TWO_THAT_DIFFER)
}

#[test]
fn number_of_a_name_is_no_damage(rt: HostRuntime) -> Result<(), TestFail> {
    let alloc = rt.alloc();
    let disk = disk_of(alloc, &GREAT_NUMBERS, &[])?;
    let kept = Kept {
        edits: 1,
        next_store: TOO_GREAT + 1,
    };
    replays(alloc, disk, 1, kept)?;
    has_files(alloc, disk, &GREAT_NUMBERS)
}
