//! A disk with two logs: the first is closed and an old log by now, the second goes on. It is never dropped, nor are the texts: no trial
//! shows how.

ghost use Rattle.disk_fakes.specs.Views.{view_of};

use crate::files::{self, add};
use disk_fakes::MemDisk;
use disk_images::{Name, NameKind};
use std::alloc::Global;
use std::test::Fail;

/// How many entries the first of two logs has, and both. They are numbered from 1 on.
#[derive(Clone, Copy)]
pub(crate) struct Logs {
    pub(crate) in_first: u64,
    pub(crate) all: u64,
}

/// So few that all of them come before the first record.
pub(crate) const FEW: Logs = Logs {
    in_first: 2,
    all: 5,
};

/// So many that there is a record among them.
pub(crate) const MANY: Logs = Logs {
    in_first: 40,
    all: 70,
};

/// What stands in front of an entry's number: the open gate, the kind and length of the frame, and region 1.
const FRONT: [u8; 10] = [0xA5, 1, 0, 0, 0, 0x30, 0, 0, 0, 1];

/// What stands after it: the time 1000, and one put of row `r`, column `f:q`, timestamp 1, value `v`.
const BEHIND: [u8; 36] = [
    0, 0, 0, 0, 0, 0, 3, 0xE8, 0, 0, 0, 1, 0, 0, 0, 0x0F, 0, 0, 0, 1, 0, 1, b'r', 1, b'f', b'q', 0,
    0, 0, 0, 0, 0, 0, 1, 4, b'v',
];

/// Writes the header of a log of version 1, and entries with the numbers from one to another.
fn write_entries(text: &mut Vec<u8>, log: u64, from: u64, to: u64) -> Result<(), Fail> {
    text.extend_from_slice(&[b'H', b'W', b'L', b'1', 0, 0, 0, 1])?;
    text.extend_from_slice(&log.to_be_bytes())?;
    for number in from..=to {
        text.extend_from_slice(&FRONT)?;
        text.extend_from_slice(&number.to_be_bytes())?;
        text.extend_from_slice(&BEHIND)?;
    }
    Ok(())
}

fn new_text(alloc: Global) -> Result<&'static mut Vec<u8>, Fail> {
    let text: Vec<u8> = Vec::new(alloc);
    Ok(Box::leak(Box::new(alloc, text)?))
}

/// The name of a log or an old log.
fn named(kind: NameKind, number: u64) -> Name {
    Name {
        kind,
        region: 0,
        number,
    }
}

/// A disk with both logs.
pub(crate) fn disk_of(alloc: Global, logs: Logs) -> Result<&'static mut MemDisk, Fail> {
    let disk = files::disk_of(alloc, &[], &[])?;
    let old = new_text(alloc)?;
    write_entries(old, 1, 1, logs.in_first)?;
    old.extend_from_slice(&[0xA5, 2, 0, 0, 0, 8])?;
    old.extend_from_slice(&logs.in_first.to_be_bytes())?;
    old.push(0)?;
    add(disk, named(NameKind::Old, 1), old.as_slice())?;
    let log = new_text(alloc)?;
    write_entries(log, 2, logs.in_first.saturating_add(1), logs.all)?;
    log.push(0)?;
    add(disk, named(NameKind::Log, 2), log.as_slice())?;
    Ok(disk)
}

/// How many logs a disk of many has, and how many entries each of them.
pub(crate) const LOGS: u64 = 6;

pub(crate) const IN_EACH: u64 = 2;

/// Makes the log after so many others: its entries go on where theirs end, and it has an end frame unless it is the last one.
fn add_log(alloc: Global, disk: &mut MemDisk, before: u64) -> Result<(), Fail>
    requires none_gone { (m : _) → ¬ (view_of disk.old).gone m }
    ensures none_gone { (m : _) → ¬ (view_of disk.new).gone m }
{
    let number = before.saturating_add(1);
    let first = before.saturating_mul(IN_EACH);
    let last = first.saturating_add(IN_EACH);
    let text = new_text(alloc)?;
    write_entries(text, number, first.saturating_add(1), last)?;
    if number < LOGS {
        text.extend_from_slice(&[0xA5, 2, 0, 0, 0, 8])?;
        text.extend_from_slice(&IN_EACH.to_be_bytes())?;
    }
    text.push(0)?;
    add(disk, named(NameKind::Log, number), text.as_slice())
}

fn add_logs(alloc: Global, disk: &mut MemDisk) -> Result<(), Fail>
    requires none_gone { (m : _) → ¬ (view_of disk.old).gone m }
{
    for before in 0..LOGS {
        add_log(alloc, disk, before)?;
    }
    Ok(())
}

/// A disk with many logs.
pub(crate) fn disk_of_many(alloc: Global) -> Result<&'static mut MemDisk, Fail> {
    let disk = files::disk_of(alloc, &[], &[])?;
    add_logs(alloc, disk)?;
    Ok(disk)
}
