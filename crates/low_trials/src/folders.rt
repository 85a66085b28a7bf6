//! Several disks on one folder and on two, and a folder that may not be written.

use crate::steps::Its::{Log, Old};
use crate::steps::Step::{self, Create, Has, Lacks, Lists, Remove, Write};
use crate::steps::{Folder, assert_none, clear, done, first_wrong_of};
use disk_folder::{Access, FolderDisk};
use std::alloc::Global;
use std::fs;
use std::test::*;

/// Whether the step is done on a disk that is made for it.
fn does(rt: &HostRuntime, access: Access, step: Step) -> bool {
    first_wrong_of(rt, access, &[(step, true)]).is_none()
}

/// One disk writes, and while it is there it holds off each other one, also one that has looked before.
fn holds_off(
    rt: &HostRuntime,
    first: &mut Folder<'_>,
    second: &mut Folder<'_>,
    alloc: Global,
) -> bool {
    done(second, alloc, Lists(&[]))
        && done(first, alloc, Create(Log(1)))
        && !done(second, alloc, Create(Log(2)))
        && !does(rt, Access::Writing, Create(Log(2)))
        && !does(rt, Access::Reading, Lists(&[Log(1)]))
}

/// The same of disks that are there for this long.
fn held_off(rt: &HostRuntime) -> bool {
    let alloc = rt.alloc();
    let mut first = FolderDisk::new(rt, alloc, Access::Writing);
    let mut second = FolderDisk::new(rt, alloc, Access::Writing);
    holds_off(rt, &mut first, &mut second, alloc)
}

/// One that reads holds off those that write, and no other that reads. It writes nothing itself.
fn reads_beside(rt: &HostRuntime, reader: &mut Folder<'_>, alloc: Global) -> bool {
    done(reader, alloc, Lists(&[Log(1)]))
        && !does(rt, Access::Writing, Lacks(Log(2)))
        && does(rt, Access::Reading, Lists(&[Log(1)]))
        && !done(reader, alloc, Create(Log(2)))
}

/// The same of a disk that is made for it.
fn reads_alone(rt: &HostRuntime) -> bool {
    let alloc = rt.alloc();
    let mut reader = FolderDisk::new(rt, alloc, Access::Reading);
    reads_beside(rt, &mut reader, alloc)
}

#[test]
fn one_program_writes(rt: HostRuntime) {
    clear(&rt);
    assert!(rt; held_off(&rt));
    assert!(rt; reads_alone(&rt));
    clear(&rt);
}

/// What is done in turn on the one disk and on the other.
const APART: &[(Step, Step)] = &[
    (Create(Log(1)), Create(Log(1))),
    (Write(Log(1), 0, b"one"), Write(Log(1), 0, b"two")),
    (Create(Old(2)), Lacks(Old(2))),
    (Remove(Old(2)), Create(Old(2))),
    (Lacks(Old(2)), Has(Old(2), 0, b"")),
    (Has(Log(1), 0, b"one"), Has(Log(1), 0, b"two")),
];

/// The first of these that goes wrong.
fn apart_wrong(first: &mut Folder<'_>, second: &mut Folder<'_>, alloc: Global) -> Option<usize> {
    for (at, (step, other)) in APART.iter().enumerate() {
        if !done(first, alloc, *step) || !done(second, alloc, *other) {
            return Some(at);
        }
    }
    None
}

/// The same of two disks that are made for them.
fn apart_wrong_of(rt: &HostRuntime) -> Option<usize> {
    let alloc = rt.alloc();
    let mut first = FolderDisk::new(rt, alloc, Access::Writing);
    let mut second = FolderDisk::named(rt, alloc, "hwal-other", Access::Writing);
    apart_wrong(&mut first, &mut second, alloc)
}

#[test]
fn named_folders_are_apart(rt: HostRuntime) {
    clear(&rt);
    assert_none(&rt, apart_wrong_of(&rt));
    clear(&rt);
    let _ = fs::remove_dir_all(&rt, "hwal-other");
}

/// Lets the log be read alone.
fn is_set_readable(rt: &HostRuntime) -> bool {
    let Ok(found) = fs::metadata(rt, "hwal-store/log-1") else {
        return false;
    };
    let mut permissions = found.permissions();
    permissions.set_readonly(true);
    fs::set_permissions(rt, "hwal-store/log-1", permissions).is_ok()
}

/// Writes a file that may be read alone.
fn is_made_readable(rt: &HostRuntime) -> bool {
    fs::create_dir(rt, "hwal-store").is_ok()
        && fs::write(rt, "hwal-store/log-1", b"here").is_ok()
        && is_set_readable(rt)
}

const READ_ALONE: &[(Step, bool)] = &[(Has(Log(1), 0, b"here"), true)];

#[test]
fn reading_asks_for_no_write(rt: HostRuntime) {
    clear(&rt);
    assert!(rt; is_made_readable(&rt));
    assert_none(&rt, first_wrong_of(&rt, Access::Writing, READ_ALONE));
    clear(&rt);
}
