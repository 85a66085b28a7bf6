//! The files of one folder. The tests run one after the other in one folder, and each removes the store that it makes.

use crate::steps::Its::{Edits, Log, Old, Store};
use crate::steps::Step::{
    self, Create, Failed, Has, Lacks, Lists, Remove, Rename, Settle, Sync, Write,
};
use crate::steps::{Folder, assert_none, clear, done, first_wrong, first_wrong_of, reads, writes};
use disk_folder::{Access, FolderDisk};
use disk_images::Disk;
use std::alloc::Global;
use std::fs;
use std::test::*;

/// Each call.
const CALLS: &[(Step, bool)] = &[
    (Settle, true),
    (Lacks(Log(1)), true),
    (Create(Edits(64, 5)), true),
    (Create(Log(1)), true),
    (Write(Log(1), 0, b"hello"), true),
    (Write(Log(1), 3, b"p wanted"), true),
    (Sync(Log(1)), true),
    (Has(Log(1), 2, b"lp wanted"), true),
    (Has(Log(1), 11, b""), true),
    (Rename(Log(1), Old(1)), true),
    (Has(Old(1), 0, b"help wanted"), true),
    (Lacks(Log(1)), true),
    (Sync(Old(1)), true),
    (Remove(Edits(64, 5)), true),
    (Lacks(Edits(64, 5)), true),
    (Settle, true),
    (Has(Old(1), 0, b"help wanted"), true),
    (Failed(0), true),
];

#[test]
fn files_read_as_written(rt: HostRuntime) {
    clear(&rt);
    assert_none(&rt, first_wrong_of(&rt, Access::Writing, CALLS));
    clear(&rt);
}

/// Files made in one order are listed in another one.
const IN_ORDER: &[(Step, bool)] = &[
    (Lists(&[]), true),
    (Create(Store(11, 2)), true),
    (Create(Log(10)), true),
    (Create(Edits(1, 1)), true),
    (Create(Log(9)), true),
    (Create(Store(3, 12)), true),
    (Create(Old(3)), true),
    (
        Lists(&[
            Log(9),
            Log(10),
            Old(3),
            Store(3, 12),
            Store(11, 2),
            Edits(1, 1),
        ]),
        true,
    ),
];

#[test]
fn names_are_in_order(rt: HostRuntime) {
    clear(&rt);
    assert_none(&rt, first_wrong_of(&rt, Access::Writing, IN_ORDER));
    clear(&rt);
}

/// What is written about the end of a piece, and what stands at the end of the file.
const END_OF_A_PIECE: &[(Step, bool)] = &[
    (Write(Log(1), 65_535, b"end of a piece"), true),
    (Has(Log(1), 69_998, b"\x07\x07"), true),
];

/// A large file is written.
fn writes_large(disk: &mut Folder<'_>, alloc: Global, bytes: &[u8]) -> bool {
    done(disk, alloc, Create(Log(1)))
        && writes(disk, Log(1), 0, bytes)
        && first_wrong(disk, alloc, END_OF_A_PIECE).is_none()
}

/// It is read whole.
fn reads_large(disk: &mut Folder<'_>, bytes: &mut [u8]) -> bool {
    bytes.fill(0);
    matches!(disk.read(Log(1).name(), 0, bytes), Ok(70_000))
        && bytes.get(65_534..65_540) == Some(b"\x07end o".as_slice())
}

/// Both on a disk that is made for it.
fn keeps_large(rt: &HostRuntime, bytes: &mut [u8]) -> bool {
    let alloc = rt.alloc();
    let mut disk = FolderDisk::new(rt, alloc, Access::Writing);
    writes_large(&mut disk, alloc, bytes) && reads_large(&mut disk, bytes)
}

#[test]
fn large_files_are_read_in_pieces(rt: HostRuntime) -> Result<(), Fail> {
    clear(&rt);
    let bytes: &'static mut [u8] = vec![in rt.alloc(); 7; 70_000]?.leak();
    assert!(rt; keeps_large(&rt, bytes));
    clear(&rt);
    Ok(())
}

/// Each of many files is made and written, and the first one between them.
fn makes_many(disk: &mut Folder<'_>, alloc: Global) -> bool {
    for number in 1..40 {
        let made = done(disk, alloc, Create(Log(number)))
            && writes(disk, Log(number), 0, &[number as u8])
            && done(disk, alloc, Write(Log(1), number, b"one more"));
        if !made {
            return false;
        }
    }
    true
}

fn reads_many(disk: &mut Folder<'_>) -> bool {
    for number in 2..40 {
        if !reads(disk, Log(number), 0, &[number as u8]) {
            return false;
        }
    }
    reads(disk, Log(1), 38, b"oone more")
}

/// Both on a disk that is made for it.
fn keeps_many(rt: &HostRuntime) -> bool {
    let alloc = rt.alloc();
    let mut disk = FolderDisk::new(rt, alloc, Access::Writing);
    makes_many(&mut disk, alloc) && reads_many(&mut disk)
}

#[test]
fn more_files_than_stay_open(rt: HostRuntime) {
    clear(&rt);
    assert!(rt; keeps_many(&rt));
    clear(&rt);
}

/// Files whose names are no store's.
const OTHERS: &[&str] = &[
    "hwal-store/log-01",
    "hwal-store/log-",
    "hwal-store/log-1 ",
    "hwal-store/log-+1",
    "hwal-store/edits-5",
    "hwal-store/edits-3-5-1",
    "hwal-store/notes",
];

/// Makes them.
fn makes_others(rt: &HostRuntime) -> bool {
    for name in OTHERS {
        if fs::write(rt, *name, b"").is_err() {
            return false;
        }
    }
    true
}

/// Makes them, a folder that is named as a log, and one file of the store.
fn makes_one_and_others(rt: &HostRuntime) -> bool {
    fs::create_dir(rt, "hwal-store").is_ok()
        && makes_others(rt)
        && fs::create_dir(rt, "hwal-store/log-1").is_ok()
        && fs::write(rt, "hwal-store/edits-64-5", b"here").is_ok()
}

const ONE_IS_SEEN: &[(Step, bool)] = &[
    (Lists(&[Edits(64, 5)]), true),
    (Lacks(Log(1)), true),
    (Has(Edits(64, 5), 1, b"ere"), true),
];

#[test]
fn other_files_are_not_seen(rt: HostRuntime) {
    clear(&rt);
    assert!(rt; makes_one_and_others(&rt));
    assert_none(&rt, first_wrong_of(&rt, Access::Reading, ONE_IS_SEEN));
    clear(&rt);
}
