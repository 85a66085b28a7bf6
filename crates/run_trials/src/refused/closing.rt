//! A server whose close may be refused memory.

use crate::refused::bench::{Recovery, empty_disk};
use command_base::read_script;
use disk_fakes::{SafeDisk, SafeSource};
use kv_cell::NoMemory;
use load_run::Gate;
use load_run::run_command::{Ran, carry_out};
use script_text::Command;
use std::alloc::Global;
use std::process::Abort;
use std::sync::Wait;
use std::sync::atomic::{AtomicU64, Ordering};
use std::test::Fail as TestFail;
use std::thread::Threads;

/// Two puts that wait for the log and one that doesn't, in two logs, and a flush.
const SCRIPT: &str = "time 1000
regions 2
handlers 1
put 1 1 sync 1
cell r f q 1 put v
put 1 1 async 1
cell r f q 1 put w
roll 1
put 1 2 sync 1
cell r f q 1 put v
flush 1 2
";

/// How many calls these are.
const CALLS: u64 = 5;

/// What such a store opens to: with each edit that was receipted, and the other one or not.
const FOUND: [&str; 2] = [
    "recovered 1 1 1\nrecovered 2 1 1\nend 0\n",
    "recovered 1 2 2\nrecovered 2 1 1\nend 0\n",
];

/// Counts the calls that are begun, and holds nobody.
#[derive(Drop)]
struct CountingGate {
    calls: AtomicU64,
}

impl CountingGate {
    fn new() -> CountingGate {
        CountingGate {
            calls: AtomicU64::new(0),
        }
    }

    /// How many were begun.
    fn calls(&self) -> u64 {
        self.calls.load(Ordering::SeqCst)
    }
}

impl Gate for CountingGate {
    fn before<R: Wait>(&self, _rt: &R, _handler: u32, _call: u32) {
        self.calls.fetch_add(1, Ordering::SeqCst);
    }

    fn logged<R: Wait>(&self, _rt: &R, _handler: u32, _call: u32) {}
}

/// What a trial takes before it begins, beside its disk.
#[derive(Drop)]
struct Given {
    source: SafeSource,
    recovery: Recovery,
}

fn prepare(alloc: Global) -> Result<(SafeDisk, Given), NoMemory> {
    let disk = empty_disk(alloc)?;
    Ok((
        disk,
        Given {
            source: SafeSource::new(alloc, SCRIPT.as_bytes())?,
            recovery: Recovery::new(alloc)?,
        },
    ))
}

/// The disk of a server that was refused memory for its close: the handler made all its calls, and no server was closed. It
/// is None where one was, or where memory was refused before.
fn refused_close<R: Threads + Wait + Sync + AllocGlobal>(
    rt: &R,
    disk: SafeDisk,
    source: &mut SafeSource,
) -> Option<SafeDisk> {
    let alloc = rt.alloc();
    let Ok(script) = read_script(alloc, source, Command::Run) else {
        return None;
    };
    let gate = CountingGate::new();
    match carry_out(rt, alloc, script, disk, &gate) {
        Ran::Left { disk } => (gate.calls() == CALLS).then_some(disk),
        Ran::Closed {
            disk: _disk,
            regions: _regions,
            replies: _replies,
            spent: _spent,
            broken: _,
        } => None,
        Ran::NotOpened {
            why: _,
            disk: _disk,
        } => None,
    }
}

fn is_among(texts: &[&str], wanted: &str) -> bool {
    for text in texts {
        if *text == wanted {
            return true;
        }
    }
    false
}

/// Closes a server, and recovers the disk that a refused close gave. One refusal of memory alone is made, so each call was
/// answered.
fn close_and_recover<R: Threads + Wait + Sync + AllocGlobal + Abort + Print>(
    rt: &R,
    disk: SafeDisk,
    given: &mut Given,
) -> Result<(), TestFail> {
    let Some(disk) = refused_close(rt, disk, &mut given.source) else {
        return Ok(());
    };
    let ends = given.recovery.recover(rt, disk).0;
    println!(rt; "the close was refused")?;
    let found = given.recovery.text(rt, ends)?;
    assert!(rt; is_among(&FOUND, found), "{found}");
    Ok(())
}

// Where the trial itself wants memory, there is nothing to look at.
#[test]
fn close_without_memory(rt: HostRuntime) -> Result<(), TestFail> {
    let Ok((disk, mut given)) = prepare(rt.alloc()) else {
        return Ok(());
    };
    close_and_recover(&rt, disk, &mut given)
}
