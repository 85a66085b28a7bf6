//! Calls on a folder, and what they have to give.

ghost use Rattle.log_model.specs.Files.{IsName};

use disk_folder::{Access, FolderDisk};
use disk_images::{Disk, Name, NameKind};
use std::alloc::Global;
use std::fs;
use std::process::Abort;
use std::test::*;

/// A file of the store.
#[derive(Clone, Copy)]
pub(crate) enum Its {
    Log(u64),
    Old(u64),
    Store(u32, u64),
    Edits(u32, u64),
}

impl Its {
    pub(crate) fn name(self) -> Name
        ensures { IsName result }
    {
        let (kind, region, number) = match self {
            Its::Log(number) => (NameKind::Log, 0, number),
            Its::Old(number) => (NameKind::Old, 0, number),
            Its::Store(region, number) => (NameKind::Store, region, number),
            Its::Edits(region, number) => (NameKind::Edits, region, number),
        };
        Name {
            kind,
            region,
            number,
        }
    }
}

/// A call, or what the folder has to show.
#[derive(Clone, Copy)]
pub(crate) enum Step {
    Create(Its),
    Write(Its, u64, &'static [u8]),
    Sync(Its),
    Rename(Its, Its),
    Remove(Its),
    Settle,
    Has(Its, u64, &'static [u8]),
    Lacks(Its),
    /// It lists exactly these files, in this order.
    Lists(&'static [Its]),
    /// So many calls have failed.
    Failed(u64),
}

use Step::{Create, Failed, Has, Lacks, Lists, Remove, Rename, Settle, Sync, Write};

/// A folder that the tests run on.
pub(crate) type Folder<'a> = FolderDisk<'a, HostRuntime>;

/// Whether the call answers Ok, or the folder is so.
pub(crate) fn done(disk: &mut Folder<'_>, alloc: Global, step: Step) -> bool {
    match step {
        Create(file) => disk.create(file.name()).is_ok(),
        Write(file, at, bytes) => writes(disk, file, at, bytes),
        Sync(file) => disk.sync(file.name()).is_ok(),
        Rename(from, to) => disk.rename(from.name(), to.name()).is_ok(),
        Remove(file) => disk.remove(file.name()).is_ok(),
        Settle => disk.settle().is_ok(),
        _ => shows(disk, alloc, step),
    }
}

/// Whether the folder is so. A call that changes it shows nothing.
fn shows(disk: &mut Folder<'_>, alloc: Global, step: Step) -> bool {
    match step {
        Has(file, at, bytes) => reads(disk, file, at, bytes),
        Lacks(file) => matches!(disk.size(file.name()), Ok(None)),
        Lists(files) => lists(disk, alloc, files),
        Failed(count) => disk.faults() == count,
        _ => false,
    }
}

/// The first step that isn't done, or is though it is not to be.
pub(crate) fn first_wrong(
    disk: &mut Folder<'_>,
    alloc: Global,
    steps: &[(Step, bool)],
) -> Option<usize> {
    for (at, (step, is_ok)) in steps.iter().enumerate() {
        if done(disk, alloc, *step) != *is_ok {
            return Some(at);
        }
    }
    None
}

/// The same of a disk that is made for them.
pub(crate) fn first_wrong_of(
    rt: &HostRuntime,
    access: Access,
    steps: &[(Step, bool)],
) -> Option<usize> {
    let alloc = rt.alloc();
    let mut disk = FolderDisk::new(rt, alloc, access);
    first_wrong(&mut disk, alloc, steps)
}

/// Asserts that none is wrong.
pub(crate) fn assert_none(rt: &impl Abort, wrong: Option<usize>) {
    assert_eq!(rt; wrong, None);
}

pub(crate) fn writes(disk: &mut Folder<'_>, file: Its, at: u64, bytes: &[u8]) -> bool {
    !bytes.is_empty() && disk.write_at(file.name(), at, bytes).is_ok()
}

/// The file reads as these bytes from this offset on, sixteen at the most.
pub(crate) fn reads(disk: &mut Folder<'_>, file: Its, at: u64, bytes: &[u8]) -> bool {
    let mut piece = [0; 16];
    match disk.read(file.name(), at, &mut piece) {
        Ok(n) => piece.get(..n) == Some(bytes),
        Err(_) => false,
    }
}

fn lists(disk: &mut Folder<'_>, alloc: Global, files: &[Its]) -> bool {
    match disk.names(alloc) {
        Ok(found) => are_named(found.as_slice(), files),
        Err(_) => false,
    }
}

/// Whether these are the names of the files, in their order.
fn are_named(names: &[Name], files: &[Its]) -> bool {
    for (at, name) in names.iter().enumerate() {
        match files.get(at) {
            Some(file) if *name == file.name() => {}
            _ => return false,
        }
    }
    names.len() == files.len()
}

/// Removes the store, if it is there.
pub(crate) fn clear(rt: &HostRuntime) {
    let _ = fs::remove_dir_all(rt, "hwal-store");
}
