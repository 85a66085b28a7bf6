//! One call of the program, as a step of a row tells it.

use crate::disk::{disk_with, files_of};
use crate::error::RowsError;
use disk_fakes::{Fail, MemDisk, MemSink, MemSource};
use load_run::{FreeGate, Outcome, run};
use row_files::{Difference, FallibleCall, Found, PlannedFail, Step, StoredFile, add_differences};
use std::alloc::{AllocError, Global};
use std::sync::Wait;
use std::thread::Threads;

/// Runs a step on a disk with these files, and tells in what it differed. Gives the files that it left.
pub fn run_step<R: Threads + Wait + Sync + AllocGlobal>(
    rt: &R,
    step: &Step,
    files: &[StoredFile],
    told: &mut Vec<Difference>,
) -> Result<Vec<StoredFile>, RowsError> {
    let alloc = rt.alloc();
    let fails = fails_behind(alloc, step, files)?;
    let mut out = sink_of(alloc, step)?;
    let outcome = call(rt, step, disk_with(alloc, files, &fails)?, &mut out)?;
    let left = judged(alloc, told, step, &outcome, out.as_slice())?;
    add_unreached(alloc, told, step, &fails, &outcome.disk)?;
    Ok(left)
}

/// The calls of the disk that are to fail, after those that place these files.
fn fails_behind(alloc: Global, step: &Step, files: &[StoredFile]) -> Result<Vec<Fail>, RowsError> {
    let plain = disk_with(alloc, files, &[])?;
    Ok(disk_fails(alloc, &step.fails, &plain)?)
}

fn call<R: Threads + Wait + Sync + AllocGlobal>(
    rt: &R,
    step: &Step,
    disk: MemDisk,
    out: &mut MemSink,
) -> Result<Outcome<MemDisk>, RowsError> {
    let alloc = rt.alloc();
    let words = words_of(alloc, step)?;
    let mut source = source_of(alloc, step)?;
    Ok(run(rt, alloc, &words, &mut source, disk, out, &FreeGate))
}

fn words_of(alloc: Global, step: &Step) -> Result<Vec<&str>, AllocError> {
    step.words.iter().map(|word| word.as_str()).collect(alloc)
}

fn source_of(alloc: Global, step: &Step) -> Result<MemSource, RowsError> {
    let fails = numbers_of(alloc, step, FallibleCall::Source)?;
    Ok(MemSource::new(alloc, &step.script, &fails)?)
}

fn sink_of(alloc: Global, step: &Step) -> Result<MemSink, RowsError> {
    let fails = numbers_of(alloc, step, FallibleCall::Sink)?;
    Ok(MemSink::new(alloc, &fails)?)
}

/// Tells in what a step differed that printed and left this. Gives its files.
fn judged(
    alloc: Global,
    told: &mut Vec<Difference>,
    step: &Step,
    outcome: &Outcome<MemDisk>,
    output: &[u8],
) -> Result<Vec<StoredFile>, RowsError> {
    let files = files_of(alloc, &outcome.disk)?;
    let found = Found {
        status: outcome.status.number(),
        output,
        files: &files,
    };
    add_differences(alloc, told, step, found)?;
    Ok(files)
}

/// The calls of the disk that are to fail, numbered after those that placed the files.
fn disk_fails(
    alloc: Global,
    planned: &[PlannedFail],
    plain: &MemDisk,
) -> Result<Vec<Fail>, AllocError> {
    let mut fails = Vec::new(alloc);
    for fail in planned {
        if let FallibleCall::Disk(call) = fail.call {
            let nth = fail.nth.saturating_add(plain.calls(call));
            fails.push(Fail { call, nth })?;
        }
    }
    Ok(fails)
}

/// The numbers of the calls of this kind that are to fail.
fn numbers_of(alloc: Global, step: &Step, call: FallibleCall) -> Result<Vec<u64>, AllocError> {
    let mut numbers = Vec::new(alloc);
    for fail in &step.fails {
        if fail.call == call {
            numbers.push(fail.nth)?;
        }
    }
    Ok(numbers)
}

/// Tells that calls of the disk which were to fail were not made, once.
fn add_unreached(
    alloc: Global,
    told: &mut Vec<Difference>,
    step: &Step,
    fails: &[Fail],
    disk: &MemDisk,
) -> Result<(), AllocError> {
    let planned = step
        .fails
        .iter()
        .filter(|fail| matches!(fail.call, FallibleCall::Disk(_)));
    for (fail, made) in planned.zip(fails.iter()) {
        if disk.calls(made.call) < made.nth {
            let what = String::from_str(alloc, "fail: this call was not made")?;
            told.push(Difference {
                line: fail.line,
                what,
            })?;
            return Ok(());
        }
    }
    Ok(())
}
