//! Runs on two disks in memory, each with a log for a group of the regions. What a run leaves is never dropped, as in bench.rt.

use crate::bench::{Given, HeldDisk, give, watched};
use crate::gates::{Hold, HoldGate, Passed};
use disk_fakes::{MemDisk, MemSink};
use groups_command::group_servers::GroupList;
use groups_command::{GroupsOutcome, GroupsStatus, run_groups};
use std::alloc::Global;
use std::str;
use std::sync::Wait;
use std::test::Fail as TestFail;
use std::thread::Threads;

/// What is left of a run: its status, the disks, what it printed, and how often its handlers passed the gate.
#[derive(Clone, Copy)]
pub(crate) struct PairEnded {
    pub(crate) status: GroupsStatus,
    pub(crate) first: &'static MemDisk,
    pub(crate) second: &'static MemDisk,
    pub(crate) text: &'static str,
    pub(crate) passed: Passed,
}

/// What is left, where no wait was in vain.
fn end_pair(
    alloc: Global,
    outcome: GroupsOutcome<HeldDisk>,
    out: &'static MemSink,
    gate: &HoldGate,
) -> Result<PairEnded, TestFail> {
    let GroupsOutcome { status, disks } = outcome;
    let disks: &'static GroupList<HeldDisk> = Box::leak(Box::new(alloc, disks)?);
    let Some(second) = &disks.second else {
        return Err(TestFail::new("a disk was left out"));
    };
    if gate.vain() != 0 {
        return Err(TestFail::new("a wait was in vain"));
    }
    Ok(PairEnded {
        status,
        first: disks.first.disk(),
        second: second.disk(),
        text: str::from_utf8(out.as_slice())?,
        passed: gate.passed(),
    })
}

/// A run of a script with this word, whose handlers are held so.
pub(crate) fn run_pair<R: Threads + Wait + Sync + AllocGlobal>(
    rt: &R,
    word: &str,
    script: &str,
    first: MemDisk,
    second: MemDisk,
    hold: Hold,
) -> Result<PairEnded, TestFail> {
    let alloc = rt.alloc();
    let Given {
        seen,
        held,
        gate,
        source,
        out,
    } = give(alloc, script, hold)?;
    let first = watched(first, seen, held)?;
    let second = watched(second, seen, held)?;
    let disks = GroupList::of(first, Some(second), None, None);
    let outcome = run_groups(rt, alloc, &[word], source, disks, out, gate);
    end_pair(alloc, outcome, out, gate)
}

/// A run on two disks whose handlers nobody holds.
pub(crate) fn run_pair_free<R: Threads + Wait + Sync + AllocGlobal>(
    rt: &R,
    script: &str,
    first: MemDisk,
    second: MemDisk,
) -> Result<PairEnded, TestFail> {
    run_pair(rt, "2", script, first, second, Hold::Nobody)
}
