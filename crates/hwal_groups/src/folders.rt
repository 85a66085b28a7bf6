//! The folders `hwal-store-1` to `hwal-store-4`, one for each group of regions.

ghost use Rattle.groups_command.specs.Disks.{AreInARow};

use disk_folder::{Access, FolderDisk};
use groups_command::group_servers::GroupList;
use std::alloc::Global;

fn folder<'a, R>(rt: &'a R, alloc: Global, name: &'static str) -> FolderDisk<'a, R> {
    FolderDisk::named(rt, alloc, name, Access::Writing)
}

/// The folders of so many groups. No call of the system is made for them here.
pub fn folders<R>(rt: &R, alloc: Global, count: u32) -> GroupList<FolderDisk<'_, R>>
    ensures { AreInARow result }
{
    let first = folder(rt, alloc, "hwal-store-1");
    match count {
        4 => GroupList::of(
            first,
            Some(folder(rt, alloc, "hwal-store-2")),
            Some(folder(rt, alloc, "hwal-store-3")),
            Some(folder(rt, alloc, "hwal-store-4")),
        ),
        3 => GroupList::of(
            first,
            Some(folder(rt, alloc, "hwal-store-2")),
            Some(folder(rt, alloc, "hwal-store-3")),
            None,
        ),
        2 => GroupList::of(first, Some(folder(rt, alloc, "hwal-store-2")), None, None),
        _ => GroupList::of(first, None, None, None),
    }
}
