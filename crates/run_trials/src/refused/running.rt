//! A run to which memory may be refused.

use crate::refused::bench::{REFUSED, Recovery, Streams, call, empty_disk};
use crate::refused::report::{SCRIPT, Told, is_kept, read_report};
use disk_fakes::SafeDisk;
use kv_cell::NoMemory;
use load_run::{Outcome, Status};
use std::alloc::Global;
use std::process::Abort;
use std::sync::Wait;
use std::test::Fail as TestFail;
use std::thread::Threads;

/// What a trial takes before it begins, beside its disk.
#[derive(Drop)]
struct Given {
    ran: Streams,
    recovery: Recovery,
}

fn prepare(alloc: Global) -> Result<(SafeDisk, Given), NoMemory> {
    let disk = empty_disk(alloc)?;
    Ok((
        disk,
        Given {
            ran: Streams::new(alloc, SCRIPT)?,
            recovery: Recovery::new(alloc)?,
        },
    ))
}

const ALL: Told = Told {
    first: true,
    second: true,
    refused: false,
};

/// Whether a run may end so: done with all that the script asks for, or refused memory, which the report tells or the one
/// line in its place.
fn may_end(status: Status, told: Option<Told>, text: &str) -> bool {
    match (status, told) {
        (Status::Done, told) => told == Some(ALL),
        (Status::Memory, Some(told)) => told.refused,
        (Status::Memory, None) => text == REFUSED,
        (_, _) => false,
    }
}

/// Asserts that a run that ended so told what it may, and that its disk was recovered to that.
fn assert_told<R: Abort>(rt: &R, status: Status, ran: &str, found: &str) {
    let told = read_report(ran);
    assert!(rt; may_end(status, told, ran), "{ran}");
    assert!(rt; is_kept(told, found), "{found} behind {ran}");
}

/// Runs the script, and then recovers the disk that it left.
fn run_and_recover<R: Threads + Wait + Sync + AllocGlobal + Abort>(
    rt: &R,
    disk: SafeDisk,
    given: &mut Given,
) -> Result<(), TestFail> {
    let Outcome { status, disk } = call(rt, "run", disk, &mut given.ran);
    let ends = given.recovery.recover(rt, disk).0;
    let found = given.recovery.text(rt, ends)?;
    assert_told(rt, status, given.ran.text()?, found);
    Ok(())
}

// Where the trial itself wants memory, there is nothing to look at.
#[test]
fn two_handlers(rt: HostRuntime) -> Result<(), TestFail> {
    let Ok((disk, mut given)) = prepare(rt.alloc()) else {
        return Ok(());
    };
    run_and_recover(&rt, disk, &mut given)
}
