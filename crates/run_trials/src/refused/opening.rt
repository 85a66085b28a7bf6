//! A second opening, to which memory may be refused, of a store whose first opening was stopped.

use crate::refused::bench::{Ends, Recovery, empty_disk};
use disk_fakes::SafeDisk;
use disk_images::{Disk, Name, NameKind};
use kv_cell::NoMemory;
use std::alloc::Global;
use std::process::Abort;
use std::sync::Wait;
use std::test::Fail as TestFail;
use std::thread::Threads;

/// A log of number 1 with edit 1 of region 1 and edit 1 of region 2: each a put of row `r`, column `f:q`, timestamp 1, `v`.
const LOG: &[u8] = &[
    b'H', b'W', b'L', b'1', 0, 0, 0, 2, 0, 0, 0, 0, 0, 0, 0, 1, 0xA5, 1, 0, 0, 0, 0x30, 0, 0, 0, 1,
    0, 0, 0, 0, 0, 0, 0, 1, 0, 0, 0, 0, 0, 0, 3, 0xE8, 0, 0, 0, 1, 0, 0, 0, 0x0F, 0, 0, 0, 1, 0, 1,
    b'r', 1, b'f', b'q', 0, 0, 0, 0, 0, 0, 0, 1, 4, b'v', 0xA5, 1, 0, 0, 0, 0x30, 0, 0, 0, 2, 0, 0,
    0, 0, 0, 0, 0, 1, 0, 0, 0, 0, 0, 0, 3, 0xE8, 0, 0, 0, 1, 0, 0, 0, 0x0F, 0, 0, 0, 1, 0, 1, b'r',
    1, b'f', b'q', 0, 0, 0, 0, 0, 0, 0, 1, 4, b'v', 0,
];

/// The edits of region 1 that the first opening split from it.
const EDITS: &[u8] = &[
    b'H', b'W', b'L', b'1', 0, 0, 0, 2, 0, 0, 0, 0, 0, 0, 0, 2, 0xA5, 1, 0, 0, 0, 0x30, 0, 0, 0, 1,
    0, 0, 0, 0, 0, 0, 0, 1, 0, 0, 0, 0, 0, 0, 3, 0xE8, 0, 0, 0, 1, 0, 0, 0, 0x0F, 0, 0, 0, 1, 0, 1,
    b'r', 1, b'f', b'q', 0, 0, 0, 0, 0, 0, 0, 1, 4, b'v', 0,
];

const LOG_1: Name = Name {
    kind: NameKind::Log,
    region: 0,
    number: 1,
};

const EDITS_1_2: Name = Name {
    kind: NameKind::Edits,
    region: 1,
    number: 2,
};

/// Adds a file, for which there is room.
fn add<R: Abort>(rt: &R, disk: &mut SafeDisk, name: Name, bytes: &[u8]) -> Result<(), TestFail> {
    assert!(rt; !bytes.is_empty());
    assert!(rt; name.region == 0 || name.kind == NameKind::Edits);
    disk.settle()?;
    assert_eq!(rt; disk.size(name)?, None);
    disk.create(name)?;
    disk.write_at(name, 0, bytes)?;
    Ok(())
}

/// A disk whose first opening was stopped after the edits of region 1, and before those of region 2 were there. It takes
/// no memory.
fn stop_first<R: Abort>(rt: &R, disk: &mut SafeDisk) -> Result<(), TestFail> {
    add(rt, disk, LOG_1, LOG)?;
    add(rt, disk, EDITS_1_2, EDITS)?;
    disk.settle()?;
    Ok(())
}

fn prepare(alloc: Global) -> Result<(SafeDisk, Recovery), NoMemory> {
    let disk = empty_disk(alloc)?;
    Ok((disk, Recovery::new(alloc)?))
}

/// Opens the store a second time, and a third time where memory was refused. Its disk then.
fn open_again<R: Threads + Wait + Sync + AllocGlobal + Abort>(
    rt: &R,
    mut disk: SafeDisk,
    recovery: &mut Recovery,
) -> Result<(Ends, SafeDisk), TestFail> {
    stop_first(rt, &mut disk)?;
    Ok(recovery.recover(rt, disk))
}

/// Asserts what was recovered, and that the files of the first opening are gone.
fn assert_opened<R: Abort>(rt: &R, disk: &mut SafeDisk, found: &str) -> Result<(), TestFail> {
    assert_eq!(rt; found, "recovered 1 1 1\nrecovered 2 1 1\nend 0\n");
    assert_eq!(rt; disk.size(LOG_1)?, None);
    assert_eq!(rt; disk.size(EDITS_1_2)?, None);
    Ok(())
}

// Where the trial itself wants memory, there is nothing to look at.
#[test]
fn second_recovery(rt: HostRuntime) -> Result<(), TestFail> {
    let Ok((disk, mut recovery)) = prepare(rt.alloc()) else {
        return Ok(());
    };
    let (ends, mut disk) = open_again(&rt, disk, &mut recovery)?;
    let found = recovery.text(&rt, ends)?;
    assert_opened(&rt, &mut disk, found)
}
