//! What an opening gives.

use crate::files::{File, hold};
use disk_fakes::MemDisk;
use disk_images::{Disk, Name, NameKind};
use region_replay::{Recovered, Replayed, recover_all};
use std::alloc::Global;
use std::test::Fail as TestFail;

/// What is wanted of a region: so many edits, numbered from 1 on, each of one cell and all of them flushed, and the number of
/// its next store.
#[derive(Clone, Copy)]
pub(crate) struct Kept {
    pub(crate) edits: u64,
    pub(crate) next_store: u64,
}

/// A region with one edit, in its first store.
pub(crate) const ONE_EDIT: Kept = Kept {
    edits: 1,
    next_store: 2,
};

/// What is wanted of an opening: what the regions have from region 1 on, with nothing in those after them, and the files
/// that it leaves.
#[derive(Clone, Copy)]
pub(crate) struct Want {
    pub(crate) regions: &'static [Kept],
    pub(crate) files: &'static [File],
}

/// What is wanted of the region at this place.
pub(crate) fn kept_at(regions: &[Kept], at: usize) -> Kept {
    match regions.get(at) {
        Some(kept) => *kept,
        None => Kept {
            edits: 0,
            next_store: 1,
        },
    }
}

/// Whether a region has these edits. A store file that was begun may raise the number of its next store.
fn has_edits(region: &Replayed, edits: u64) -> bool {
    region.base.cells.len() as u64 == edits && region.base.last == edits && region.flushed == edits
}

/// Whether a region has these edits, and its next store has this number.
pub(crate) fn is_kept(region: &Replayed, kept: Kept) -> bool {
    has_edits(region, kept.edits) && region.next_store == kept.next_store
}

/// Whether each of the 64 regions has the edits that are wanted.
pub(crate) fn have_edits(replayed: &[Replayed], regions: &[Kept]) -> bool {
    for (i, region) in replayed.iter().enumerate() {
        if !has_edits(region, kept_at(regions, i).edits) {
            return false;
        }
    }
    replayed.len() == 64
}

/// Whether none of these is a log's or an edits file's name.
fn are_none_logged(names: &[Name]) -> bool {
    for name in names {
        if name.kind == NameKind::Log || name.kind == NameKind::Edits {
            return false;
        }
    }
    true
}

/// Whether no log and no edits file is there.
fn is_none_logged(alloc: Global, disk: &mut MemDisk) -> Result<bool, TestFail> {
    let names = disk.names(alloc)?;
    Ok(are_none_logged(names.as_slice()))
}

/// What a store is opened to.
pub(crate) fn opened(alloc: Global, disk: &mut MemDisk) -> Result<&'static Recovered, TestFail> {
    let Ok(recovered) = recover_all(alloc, disk) else {
        return Err(TestFail::new("it is not opened"));
    };
    Ok(Box::leak(Box::new(alloc, recovered)?))
}

/// Opens a store after a crash or a fault: each region is to have its edits, with no log and no edits file left.
pub(crate) fn opens_again(
    alloc: Global,
    disk: &mut MemDisk,
    regions: &[Kept],
) -> Result<(), TestFail> {
    let recovered = opened(alloc, disk)?;
    let have = have_edits(recovered.as_slice(), regions);
    hold(have, "a region has other edits")?;
    let none_logged = is_none_logged(alloc, disk)?;
    hold(none_logged, "a log or an edits file is left")
}
