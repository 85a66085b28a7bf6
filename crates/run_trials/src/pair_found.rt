//! What lies on two disks after a run, and runs on disks on which something else was found.

use crate::bench::{add_file, copy_of, empty_disk, expect};
use crate::pair_worked::{FOUND, NO_CALLS, SCRIPT};
use crate::pairs::{PairEnded, run_pair_free};
use disk_fakes::MemDisk;
use disk_images::{Disk, Name, NameKind};
use groups_command::GroupsStatus;
use std::alloc::Global;
use std::process::Abort;
use std::sync::Wait;
use std::test::Fail as TestFail;
use std::thread::Threads;

const LOG_1: Name = Name {
    kind: NameKind::Log,
    region: 0,
    number: 1,
};

const LOG_2: Name = Name {
    kind: NameKind::Log,
    region: 0,
    number: 2,
};

const STORE_1_1: Name = Name {
    kind: NameKind::Store,
    region: 1,
    number: 1,
};

/// Whether these files are there, and no other.
fn lists(alloc: Global, disk: &MemDisk, names: &[Name]) -> Result<bool, TestFail> {
    let mut copy = copy_of(alloc, disk)?;
    let is_listed = match copy.names(alloc) {
        Ok(found) => found.as_slice() == names,
        Err(_) => false,
    };
    Ok(is_listed)
}

/// A run on the disks that another one left, in the other order.
fn run_exchanged<R: Threads + Wait + Sync + AllocGlobal>(
    rt: &R,
    script: &str,
    ran: PairEnded,
) -> Result<PairEnded, TestFail> {
    let first = copy_of(rt.alloc(), ran.second)?;
    let second = copy_of(rt.alloc(), ran.first)?;
    run_pair_free(rt, script, first, second)
}

/// The run's roll ended the log of the second disk alone.
fn is_rolled(alloc: Global, ran: PairEnded) -> Result<bool, TestFail> {
    let is_first = lists(alloc, ran.first, &[LOG_1, STORE_1_1])?;
    let is_second = lists(alloc, ran.second, &[LOG_1, LOG_2])?;
    Ok(is_first && is_second)
}

fn is_refused(ran: PairEnded) -> bool {
    matches!(ran.status, GroupsStatus::WrongGroup { disk: 1, region: 2 })
        && ran.text == "refused group 1 2\n"
}

/// Runs on the disks in the other order, and once more as they were.
fn exchange_twice<R: Threads + Wait + Sync + AllocGlobal + Abort>(
    rt: &R,
    ran: PairEnded,
) -> Result<(), TestFail> {
    let wrong = run_exchanged(rt, SCRIPT, ran)?;
    expect(rt, is_refused(wrong), wrong.text);
    let right = run_exchanged(rt, NO_CALLS, wrong)?;
    let is_right = right.status == GroupsStatus::Done && right.text == FOUND;
    expect(rt, is_right, right.text);
    Ok(())
}

#[test]
fn disks_in_the_other_order(rt: HostRuntime) -> Result<(), TestFail> {
    let alloc = rt.alloc();
    let first = empty_disk(alloc, &[])?;
    let second = empty_disk(alloc, &[])?;
    let ran = run_pair_free(&rt, SCRIPT, first, second)?;
    let is_rolled = is_rolled(alloc, ran)?;
    expect(&rt, is_rolled, ran.text);
    exchange_twice(&rt, ran)
}

// The second disk has a log that is none, longer than one that a crash may cut short. No log is begun on the first disk before all are
// looked at.
#[test]
fn damage_of_the_second_disk(rt: HostRuntime) -> Result<(), TestFail> {
    let alloc = rt.alloc();
    let mut second = empty_disk(alloc, &[])?;
    add_file(&mut second, LOG_1, b"this is no log of a store")?;
    let first = empty_disk(alloc, &[])?;
    let ran = run_pair_free(&rt, SCRIPT, first, second)?;
    let is_told = matches!(ran.status, GroupsStatus::Damaged { disk: 2, .. });
    let is_damage = is_told && ran.text == "refused damaged log-1 0\n";
    expect(&rt, is_damage && lists(alloc, ran.first, &[])?, ran.text);
    Ok(())
}
