//! A script of calls that a device is taken through.

use crate::bench::Bench;
use crate::entries::{flush, stage_put};
use disk_fakes::MemDisk;
use log_device::{DeviceFlush, RollRefusal, Rolled, WriteFault};
use std::alloc::Global;
use std::test::*;

/// A call of the device.
#[derive(Clone, Copy)]
pub(crate) enum Step {
    /// Into family `f` of a region.
    Put(u32),
    Sync,
    Roll,
    /// Of a region, or of one family of it.
    Flush(u32, Option<u8>),
    Archive,
}

/// What it answers.
#[derive(Clone, Copy, PartialEq, Eq)]
pub(crate) enum Answer {
    /// The number that was staged.
    Staged(u64),
    /// The number of entries, the flushed number, or the number of logs.
    Done(u64),
    Rolled(u64, u64),
    Nothing(u64),
    Full,
    WriteFault,
    Memory,
}

/// Five edits of two regions. All but the last two stand in the first log.
pub(crate) const SCRIPT: [Step; 11] = [
    Step::Put(1),
    Step::Sync,
    Step::Put(1),
    Step::Put(2),
    Step::Sync,
    Step::Roll,
    Step::Flush(1, None),
    Step::Put(1),
    Step::Put(2),
    Step::Flush(2, None),
    Step::Archive,
];

/// Takes one step.
pub(crate) fn take(alloc: Global, bench: &mut Bench<MemDisk>, step: Step) -> Result<Answer, Fail> {
    match step {
        Step::Put(region) => stage(alloc, bench, region),
        Step::Sync => Ok(counted(bench.sync())),
        Step::Roll => Ok(roll(alloc, bench)),
        Step::Flush(region, family) => Ok(flushed(flush(alloc, bench, region, family)?)),
        Step::Archive => Ok(counted(bench.archive())),
    }
}

fn counted(res: Result<u64, WriteFault>) -> Answer {
    match res {
        Ok(count) => Answer::Done(count),
        Err(WriteFault) => Answer::WriteFault,
    }
}

fn stage(alloc: Global, bench: &mut Bench<MemDisk>, region: u32) -> Result<Answer, Fail> {
    match stage_put(alloc, bench, region)? {
        Some(number) => Ok(Answer::Staged(number)),
        None => Ok(Answer::Full),
    }
}

fn roll(alloc: Global, bench: &mut Bench<MemDisk>) -> Answer {
    match bench.roll(alloc) {
        Ok(Rolled { closed, entries }) => Answer::Rolled(closed, entries),
        Err(RollRefusal::Memory) => Answer::Memory,
        Err(RollRefusal::WriteFault) => Answer::WriteFault,
        Err(RollRefusal::NothingToRoll { file }) => Answer::Nothing(file),
    }
}

fn flushed(res: Result<u64, DeviceFlush>) -> Answer {
    match res {
        Ok(number) => Answer::Done(number),
        Err(DeviceFlush::Memory) => Answer::Memory,
        Err(DeviceFlush::WriteFault) => Answer::WriteFault,
        Err(DeviceFlush::Nothing { flushed }) => Answer::Nothing(flushed),
    }
}

/// What the device answers to each step of the script, and its numbers then, as `numbers` gives them.
pub(crate) const ANSWERS: [(Answer, [u64; 6]); 11] = [
    (Answer::Staged(1), [0, 0, 0, 0, 0, 0]),
    (Answer::Done(1), [1, 0, 0, 0, 0, 0]),
    (Answer::Staged(2), [1, 0, 0, 0, 0, 0]),
    (Answer::Staged(1), [1, 0, 0, 0, 0, 0]),
    (Answer::Done(2), [2, 1, 0, 0, 0, 0]),
    (Answer::Rolled(1, 3), [2, 1, 0, 0, 2, 1]),
    (Answer::Done(2), [2, 1, 2, 0, 2, 1]),
    (Answer::Staged(3), [2, 1, 2, 0, 2, 1]),
    (Answer::Staged(2), [2, 1, 2, 0, 2, 1]),
    (Answer::Done(2), [3, 2, 2, 2, 2, 1]),
    (Answer::Done(1), [3, 2, 2, 2, 2, 1]),
];

/// What is synced, stored and closed of regions 1 and 2.
pub(crate) fn numbers(bench: &Bench<MemDisk>) -> [u64; 6] {
    [
        bench.device.synced(1),
        bench.device.synced(2),
        bench.device.stored(1),
        bench.device.stored(2),
        bench.device.closed(1),
        bench.device.closed(2),
    ]
}
