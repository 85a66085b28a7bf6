//! A fault of each disk call, and a crash at each moment, of one script: what is found again are of each region the cells of its first
//! edits, with those that were receipted among them.

use crate::bench::{Ended, copy_of, crash_at, empty_disk, expect, recover, run_free};
use crate::prefixes::{SCANS, SCRIPT, durable, is_shown};
use crate::report::journal_last;
use disk_fakes::{CallKind, Fail, MemDisk};
use load_run::Status;
use std::process::Abort;
use std::sync::Wait;
use std::test::Fail as TestFail;
use std::thread::Threads;

/// Recovers what a crash at this moment leaves, and shows it. Of each region there are the cells of its edits up to its last number,
/// and no other.
fn found_at<R: Threads + Wait + Sync + AllocGlobal + Abort>(
    rt: &R,
    disk: &MemDisk,
    moment: u64,
    choice: u64,
) -> Result<&'static str, TestFail> {
    let alloc = rt.alloc();
    let again = recover(rt, crash_at(alloc, disk, moment, choice)?)?;
    let seen = run_free(rt, SCANS, copy_of(alloc, again.disk)?)?;
    let text = seen.text;
    let is_done = again.status == Status::Done && seen.status == Status::Done;
    let is_prefix = is_shown(text, journal_last(text, 1), journal_last(text, 2));
    expect(rt, is_done && is_prefix, text);
    Ok(text)
}

/// Whether of a region are found at least the edits up to its receipted number, where a receipt had come by then, and none that isn't
/// in its journal.
fn is_within(report: &str, found: &str, region: u64, receipts: bool) -> bool {
    let least = if receipts { durable(report, region) } else { 0 };
    let last = journal_last(found, region);
    least <= last && last <= journal_last(report, region)
}

/// Asserts that a crash at this moment leaves of each region the cells of such first edits.
fn assert_stop<R: Threads + Wait + Sync + AllocGlobal + Abort>(
    rt: &R,
    ran: Ended,
    moment: u64,
    choice: u64,
    receipts: bool,
) -> Result<(), TestFail> {
    let found = found_at(rt, ran.disk, moment, choice)?;
    let holds = is_within(ran.text, found, 1, receipts) && is_within(ran.text, found, 2, receipts);
    expect(rt, holds, found);
    Ok(())
}

/// Whether a run ended as one does in which a call failed, or none did.
fn is_told(ran: Ended, failed: bool) -> bool {
    let is_fault = ran.text == "refused disk\n" || ran.text.ends_with("end 5\n");
    if failed {
        ran.status == Status::DiskFault && is_fault
    } else {
        ran.status == Status::Done && !is_fault
    }
}

/// Runs the script where this call fails. Says whether it was made.
fn fails_once<R: Threads + Wait + Sync + AllocGlobal + Abort>(
    rt: &R,
    call: CallKind,
    nth: u64,
) -> Result<bool, TestFail> {
    let disk = empty_disk(rt.alloc(), &[Fail { call, nth }])?;
    let ran = run_free(rt, SCRIPT, disk)?;
    let failed = ran.disk.calls(call) >= nth;
    expect(rt, is_told(ran, failed), ran.text);
    for choice in 0..4 {
        assert_stop(rt, ran, ran.disk.clock(), choice, true)?;
    }
    Ok(failed)
}

const KINDS: [CallKind; 9] = [
    CallKind::Names,
    CallKind::Size,
    CallKind::Read,
    CallKind::Create,
    CallKind::WriteAt,
    CallKind::Sync,
    CallKind::Rename,
    CallKind::Remove,
    CallKind::Settle,
];

/// Runs the script where one call of a kind fails, each in turn. Says whether these were fewer than 100.
fn fail_each<R: Threads + Wait + Sync + AllocGlobal + Abort>(
    rt: &R,
    call: CallKind,
) -> Result<bool, TestFail> {
    for nth in 1..100 {
        if !fails_once(rt, call, nth)? {
            return Ok(true);
        }
    }
    Ok(false)
}

#[test]
fn fails_everywhere(rt: HostRuntime) -> Result<(), TestFail> {
    for call in &KINDS {
        let is_each = fail_each(&rt, *call)?;
        expect(&rt, is_each, "there are more calls of a kind");
    }
    Ok(())
}

#[test]
fn stops_everywhere(rt: HostRuntime) -> Result<(), TestFail> {
    let ran = run_free(&rt, SCRIPT, empty_disk(rt.alloc(), &[])?)?;
    let clock = ran.disk.clock();
    expect(&rt, ran.status == Status::Done && clock < 1_000, ran.text);
    for moment in 0..clock.saturating_add(1) {
        for choice in 0..4 {
            assert_stop(&rt, ran, moment, choice, moment == clock)?;
        }
    }
    let found = found_at(&rt, ran.disk, clock, 0)?;
    let is_all = journal_last(found, 1) == 3 && journal_last(found, 2) == 3;
    expect(&rt, is_all, found);
    Ok(())
}
