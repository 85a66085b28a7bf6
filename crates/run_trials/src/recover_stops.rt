//! A second opening, after one that was stopped, is stopped at each moment.

use crate::bench::{add_file, crash_at, empty_disk, expect, recover};
use disk_fakes::MemDisk;
use disk_images::{Disk, Name, NameKind};
use load_run::Status;
use std::alloc::Global;
use std::test::Fail as TestFail;

const LOG_1: Name = Name {
    kind: NameKind::Log,
    region: 0,
    number: 1,
};

const EDITS_1_2: Name = Name {
    kind: NameKind::Edits,
    region: 1,
    number: 2,
};

/// A log of version 1, which is read and written no more, with an entry of region 1 and one of region 2, both of number 1: a put of one
/// cell.
const LOG_OF_BOTH: &[u8] = &[
    b'H', b'W', b'L', b'1', 0, 0, 0, 1, 0, 0, 0, 0, 0, 0, 0, 1, 0xA5, 1, 0, 0, 0, 0x30, 0, 0, 0, 1,
    0, 0, 0, 0, 0, 0, 0, 1, 0, 0, 0, 0, 0, 0, 3, 0xE8, 0, 0, 0, 1, 0, 0, 0, 0x0F, 0, 0, 0, 1, 0, 1,
    b'r', 1, b'f', b'q', 0, 0, 0, 0, 0, 0, 0, 1, 4, b'v', 0xA5, 1, 0, 0, 0, 0x30, 0, 0, 0, 2, 0, 0,
    0, 0, 0, 0, 0, 1, 0, 0, 0, 0, 0, 0, 3, 0xE8, 0, 0, 0, 1, 0, 0, 0, 0x0F, 0, 0, 0, 1, 0, 1, b'r',
    1, b'f', b'q', 0, 0, 0, 0, 0, 0, 0, 1, 4, b'v', 0,
];

/// The edits of region 1 of that log, in a file of version 2 and number 2.
const EDITS_OF_ONE: &[u8] = &[
    b'H', b'W', b'L', b'1', 0, 0, 0, 2, 0, 0, 0, 0, 0, 0, 0, 2, 0xA5, 1, 0, 0, 0, 0x30, 0, 0, 0, 1,
    0, 0, 0, 0, 0, 0, 0, 1, 0, 0, 0, 0, 0, 0, 3, 0xE8, 0, 0, 0, 1, 0, 0, 0, 0x0F, 0, 0, 0, 1, 0, 1,
    b'r', 1, b'f', b'q', 0, 0, 0, 0, 0, 0, 0, 1, 4, b'v', 0,
];

/// A store whose opening was stopped when the edits of region 1 were written, and those of region 2 were not.
fn stopped(alloc: Global) -> Result<MemDisk, TestFail> {
    let mut disk = empty_disk(alloc, &[])?;
    add_stopped(&mut disk)?;
    Ok(disk)
}

fn add_stopped(disk: &mut MemDisk) -> Result<(), TestFail> {
    add_file(disk, LOG_1, LOG_OF_BOTH)?;
    add_file(disk, EDITS_1_2, EDITS_OF_ONE)?;
    disk.settle()?;
    Ok(())
}

const BOTH: &str = "recovered 1 1 1\nrecovered 2 1 1\nend 0\n";

#[test]
fn stopped_at_each_moment_it_recovers_to_the_same(rt: HostRuntime) -> Result<(), TestFail> {
    let alloc = rt.alloc();
    let disk = stopped(alloc)?;
    let from = disk.clock();
    let recovered = recover(&rt, disk)?;
    let last = recovered.disk.clock();
    expect(&rt, last < 1_000, recovered.text);
    for moment in from..last.saturating_add(1) {
        for choice in 0..4 {
            let image = crash_at(alloc, recovered.disk, moment, choice)?;
            let again = recover(&rt, image)?;
            let is_same = again.status == Status::Done && again.text == BOTH;
            expect(&rt, is_same, again.text);
        }
    }
    Ok(())
}
