//! A log that is cut after each of its bytes.

use crate::bench::{add_file, empty_disk, expect, recover};
use disk_fakes::MemDisk;
use disk_images::{Name, NameKind};
use load_run::Status;
use std::alloc::Global;
use std::process::Abort;
use std::sync::Wait;
use std::test::Fail as TestFail;
use std::thread::Threads;

const LOG_1: Name = Name {
    kind: NameKind::Log,
    region: 0,
    number: 1,
};

/// The first log with one put into region 1 with number 1 at time 1000: row `r`, column `f:q`, timestamp 1, value `v`; and an end
/// frame after it, from 70 on.
const ENDED: [u8; 85] = [
    b'H', b'W', b'L', b'1', 0, 0, 0, 2, 0, 0, 0, 0, 0, 0, 0, 1, 0xA5, 1, 0, 0, 0, 0x30, 0, 0, 0, 1,
    0, 0, 0, 0, 0, 0, 0, 1, 0, 0, 0, 0, 0, 0, 3, 0xE8, 0, 0, 0, 1, 0, 0, 0, 0x0F, 0, 0, 0, 1, 0, 1,
    b'r', 1, b'f', b'q', 0, 0, 0, 0, 0, 0, 0, 1, 4, b'v', 0xA5, 2, 0, 0, 0, 8, 0, 0, 0, 0, 0, 0, 0,
    1, 0,
];

const NONE: &str = "end 0\n";

const ONE: &str = "recovered 1 1 1\nend 0\n";

const DAMAGED_ENTRY: &str = "refused damaged log-1 16\n";

const DAMAGED_END: &str = "refused damaged log-1 70\n";

/// What `recover` prints of the first bytes of the log, up to this length.
const CUTS: [(usize, &str); 5] = [
    (17, NONE),
    (70, DAMAGED_ENTRY),
    (71, ONE),
    (84, DAMAGED_END),
    (85, ONE),
];

/// What it prints of so many bytes.
fn wanted_of(len: usize) -> &'static str {
    for (last, text) in &CUTS {
        if len <= *last {
            return text;
        }
    }
    ""
}

/// A disk with so many bytes of the log.
fn disk_of(alloc: Global, len: usize) -> Result<MemDisk, TestFail> {
    let mut disk = empty_disk(alloc, &[])?;
    add_file(&mut disk, LOG_1, &ENDED[..len.min(85)])?;
    Ok(disk)
}

/// Asserts what is recovered of so many bytes.
fn assert_cut<R: Threads + Wait + Sync + AllocGlobal + Abort>(
    rt: &R,
    len: usize,
) -> Result<(), TestFail> {
    let wanted = wanted_of(len);
    let ran = recover(rt, disk_of(rt.alloc(), len)?)?;
    let is_done = ran.status == Status::Done;
    let is_read = is_done == wanted.ends_with("end 0\n");
    expect(rt, is_read && ran.text == wanted, ran.text);
    Ok(())
}

#[test]
fn cut_logs(rt: HostRuntime) -> Result<(), TestFail> {
    for len in 0..86 {
        assert_cut(&rt, len)?;
    }
    Ok(())
}
