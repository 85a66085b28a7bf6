//! Calls of the program on disks in memory, whose source and sink are in memory too. What a call takes and leaves is never dropped, so
//! that no exit of a trial writes out how: no trial shows that.

use crate::gates::{Hold, HoldGate, Passed};
use disk_fakes::{Fail, MemDisk, MemSink, MemSource, WatchDisk};
use disk_images::{Disk, Name, NameKind};
use load_run::{Outcome, Status, run};
use std::alloc::Global;
use std::process::Abort;
use std::str;
use std::sync::atomic::AtomicU64;
use std::sync::{Arc, Wait};
use std::test::Fail as TestFail;
use std::thread::Threads;

/// The disk of each call, so that a call is built once.
pub(crate) type HeldDisk = WatchDisk<MemDisk>;

/// What is left of a call: its status, the disk, what it printed, and how often its handlers passed the gate.
#[derive(Clone, Copy)]
pub(crate) struct Ended {
    pub(crate) status: Status,
    pub(crate) disk: &'static MemDisk,
    pub(crate) text: &'static str,
    pub(crate) passed: Passed,
}

/// What a call takes beside its disk: the words that a disk tells and obeys, the gate that looks at them, source and sink.
pub(crate) struct Given {
    pub(crate) seen: &'static Arc<AtomicU64>,
    pub(crate) held: &'static Arc<AtomicU64>,
    pub(crate) gate: &'static HoldGate,
    pub(crate) source: &'static mut MemSource,
    pub(crate) out: &'static mut MemSink,
}

fn word_of(alloc: Global) -> Result<&'static Arc<AtomicU64>, TestFail> {
    let word = Arc::new(alloc, AtomicU64::new(0))?;
    Ok(Box::leak(Box::new(alloc, word)?))
}

fn source_of(alloc: Global, script: &str) -> Result<&'static mut MemSource, TestFail> {
    let source = MemSource::new(alloc, script.as_bytes(), &[])?;
    Ok(Box::leak(Box::new(alloc, source)?))
}

fn sink_of(alloc: Global) -> Result<&'static mut MemSink, TestFail> {
    let sink = MemSink::new(alloc, &[])?;
    Ok(Box::leak(Box::new(alloc, sink)?))
}

pub(crate) fn give(alloc: Global, script: &str, hold: Hold) -> Result<Given, TestFail> {
    let seen = word_of(alloc)?;
    let held = word_of(alloc)?;
    let gate = Box::leak(Box::new(alloc, HoldGate::new(hold, seen, held))?);
    let source = source_of(alloc, script)?;
    let out = sink_of(alloc)?;
    Ok(Given {
        seen,
        held,
        gate,
        source,
        out,
    })
}

/// A disk whose syncs these words tell and hold.
pub(crate) fn watched(
    disk: MemDisk,
    seen: &Arc<AtomicU64>,
    held: &Arc<AtomicU64>,
) -> Result<HeldDisk, TestFail> {
    let (Ok(seen), Ok(held)) = (Arc::try_clone(seen), Arc::try_clone(held)) else {
        return Err(TestFail::new("no more words"));
    };
    Ok(WatchDisk::new(disk, seen, held))
}

/// What is left, where no wait was in vain.
fn end(
    alloc: Global,
    outcome: Outcome<HeldDisk>,
    out: &'static MemSink,
    gate: &HoldGate,
) -> Result<Ended, TestFail> {
    let Outcome { status, disk } = outcome;
    let disk: &'static HeldDisk = Box::leak(Box::new(alloc, disk)?);
    if gate.vain() != 0 {
        return Err(TestFail::new("a wait was in vain"));
    }
    Ok(Ended {
        status,
        disk: disk.disk(),
        text: str::from_utf8(out.as_slice())?,
        passed: gate.passed(),
    })
}

/// A call of the program with this word, whose handlers are held so.
pub(crate) fn call<R: Threads + Wait + Sync + AllocGlobal>(
    rt: &R,
    word: &str,
    script: &str,
    disk: MemDisk,
    hold: Hold,
) -> Result<Ended, TestFail> {
    let alloc = rt.alloc();
    let Given {
        seen,
        held,
        gate,
        source,
        out,
    } = give(alloc, script, hold)?;
    let disk = watched(disk, seen, held)?;
    let outcome = run(rt, alloc, &[word], source, disk, out, gate);
    end(alloc, outcome, out, gate)
}

/// A run of a script whose handlers nobody holds.
pub(crate) fn run_free<R: Threads + Wait + Sync + AllocGlobal>(
    rt: &R,
    script: &str,
    disk: MemDisk,
) -> Result<Ended, TestFail> {
    call(rt, "run", script, disk, Hold::Nobody)
}

/// Recovers a disk.
pub(crate) fn recover<R: Threads + Wait + Sync + AllocGlobal>(
    rt: &R,
    disk: MemDisk,
) -> Result<Ended, TestFail> {
    call(rt, "recover", "", disk, Hold::Nobody)
}

/// An empty disk whose calls of these kinds and numbers fail.
pub(crate) fn empty_disk(alloc: Global, fails: &[Fail]) -> Result<MemDisk, TestFail> {
    Ok(MemDisk::new(alloc, fails)?)
}

/// Adds a file that no crash loses; an empty one may be lost.
pub(crate) fn add_file(disk: &mut MemDisk, name: Name, bytes: &[u8]) -> Result<(), TestFail> {
    disk.settle()?;
    let is_of_region = matches!(name.kind, NameKind::Store | NameKind::Edits);
    if (name.region != 0 && !is_of_region) || disk.bytes(name).is_some() {
        return Err(TestFail::new("no such file can be made"));
    }
    disk.create(name)?;
    if bytes.is_empty() {
        return Ok(());
    }
    disk.write_at(name, 0, bytes)?;
    disk.sync(name)?;
    Ok(())
}

/// What a crash at this moment may leave.
pub(crate) fn crash_at(
    alloc: Global,
    disk: &MemDisk,
    moment: u64,
    choice: u64,
) -> Result<MemDisk, TestFail> {
    if moment > disk.clock() {
        return Err(TestFail::new("no such moment"));
    }
    Ok(disk.crash(alloc, moment, choice)?)
}

/// A copy of a disk: what a stop at the last moment leaves that loses nothing.
pub(crate) fn copy_of(alloc: Global, disk: &MemDisk) -> Result<MemDisk, TestFail> {
    crash_at(alloc, disk, disk.clock(), 0)
}

/// Asserts what is told of a text. All trials assert by this, since each assertion is proved where it stands.
pub(crate) fn expect<R: Abort>(rt: &R, holds: bool, text: &str) {
    assert!(rt; holds, "{text}");
}
