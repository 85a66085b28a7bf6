//! A script of calls, in which each disk call fails, and which is stopped at each moment.

use crate::bench::Bench;
use crate::entries::{start, two_regions};
use crate::files::hold;
use crate::image::{Mark, are_images};
use crate::script::{ANSWERS, Answer, SCRIPT, Step, numbers, take};
use crate::stops::KINDS;
use disk_fakes::{CallKind, Fail, MemDisk};
use log_device::{DeviceRefusal, DeviceWhy};
use std::alloc::Global;
use std::test::Fail as TestFail;

// The disk calls of the script, and the step in which each is made; step 0 is the start.
const CALLS: [(CallKind, u64, usize); 38] = [
    (CallKind::Names, 1, 0),
    (CallKind::Create, 1, 0),
    (CallKind::WriteAt, 1, 0),
    (CallKind::Sync, 1, 0),
    (CallKind::WriteAt, 2, 2),
    (CallKind::Sync, 2, 2),
    (CallKind::WriteAt, 3, 2),
    (CallKind::Sync, 3, 2),
    (CallKind::WriteAt, 4, 5),
    (CallKind::Sync, 4, 5),
    (CallKind::WriteAt, 5, 5),
    (CallKind::Sync, 5, 5),
    (CallKind::WriteAt, 6, 6),
    (CallKind::Sync, 6, 6),
    (CallKind::WriteAt, 7, 6),
    (CallKind::Sync, 7, 6),
    (CallKind::Create, 2, 6),
    (CallKind::WriteAt, 8, 6),
    (CallKind::Sync, 8, 6),
    (CallKind::Create, 3, 7),
    (CallKind::WriteAt, 9, 7),
    (CallKind::Sync, 9, 7),
    (CallKind::WriteAt, 10, 7),
    (CallKind::Sync, 10, 7),
    (CallKind::WriteAt, 11, 7),
    (CallKind::Sync, 11, 7),
    (CallKind::WriteAt, 12, 10),
    (CallKind::Sync, 12, 10),
    (CallKind::WriteAt, 13, 10),
    (CallKind::Sync, 13, 10),
    (CallKind::Create, 4, 10),
    (CallKind::WriteAt, 14, 10),
    (CallKind::Sync, 14, 10),
    (CallKind::WriteAt, 15, 10),
    (CallKind::Sync, 15, 10),
    (CallKind::WriteAt, 16, 10),
    (CallKind::Sync, 16, 10),
    (CallKind::Rename, 1, 11),
];

/// Each call of a device that makes disk calls, and one that stages.
const AFTER: [Step; 6] = [
    Step::Sync,
    Step::Roll,
    Step::Flush(1, None),
    Step::Flush(1, Some(b'f')),
    Step::Archive,
    Step::Put(1),
];

/// How many calls were made.
fn all_calls(disk: &MemDisk) -> u64 {
    let mut sum: u64 = 0;
    for kind in &KINDS {
        sum = sum.saturating_add(disk.calls(*kind));
    }
    sum
}

/// After the start, and after each step of the script that came off. What isn't made yet stands at no moment.
type Marks = [Mark; 12];

const NO_MARKS: Marks = [Mark {
    clock: u64::MAX,
    staged: 0,
    synced: 0,
}; 12];

/// What stands now, where this many edits were staged. They are synced in the order in which they were staged.
fn mark(bench: &Bench<MemDisk>, staged: u64) -> Mark {
    Mark {
        clock: bench.device.disk().clock(),
        staged,
        synced: bench
            .device
            .synced(1)
            .saturating_add(bench.device.synced(2)),
    }
}

/// Takes the device through the script up to the step in which its disk fails, and gives that step's number, 0 where none
/// is, and the moment before it. Each step before is to answer, and to leave the numbers, that stand in the table.
fn run(
    alloc: Global,
    bench: &mut Bench<MemDisk>,
    marks: &mut Marks,
) -> Result<(usize, u64), TestFail> {
    let mut staged: u64 = 0;
    marks[0] = mark(bench, staged);
    for i in 0..11 {
        let before = bench.device.disk().clock();
        let answer = take(alloc, bench, SCRIPT[i])?;
        if answer == Answer::WriteFault {
            return Ok((i + 1, before));
        }
        let (wanted, after) = ANSWERS[i];
        let is_wanted = answer == wanted && numbers(bench) == after;
        hold(is_wanted, "a step has another answer or other numbers")?;
        if let Answer::Staged(_) = answer {
            staged = staged.saturating_add(1);
        }
        marks[i + 1] = mark(bench, staged);
    }
    Ok((0, 0))
}

/// Each call of a device that is broken is to be refused.
fn refuses_all(alloc: Global, bench: &mut Bench<MemDisk>) -> Result<(), TestFail> {
    for step in &AFTER {
        let want = match step {
            Step::Put(_) => Answer::Full,
            _ => Answer::WriteFault,
        };
        let answer = take(alloc, bench, *step)?;
        hold(answer == want, "a broken device goes on")?;
    }
    Ok(())
}

/// The device is to be broken, and no further call is to change anything.
fn stays_broken(alloc: Global, bench: &mut Bench<MemDisk>) -> Result<(), TestFail> {
    let broken = bench.device.broken();
    let before = (all_calls(bench.device.disk()), numbers(bench));
    refuses_all(alloc, bench)?;
    let after = (all_calls(bench.device.disk()), numbers(bench));
    hold(
        broken && bench.device.broken() && after == before,
        "a broken device is changed",
    )
}

/// A start whose disk fails is to be refused, and to leave what it has to.
fn is_refused(
    alloc: Global,
    refusal: &DeviceRefusal<MemDisk>,
    step: usize,
) -> Result<(), TestFail> {
    let is_fault = step == 0 && refusal.why == DeviceWhy::DiskFault;
    hold(is_fault, "a start is refused for another cause")?;
    are_images(alloc, &refusal.disk, &NO_MARKS, 0)
}

/// The script on a device whose disk fails in this step is to end there, and to leave what it has to. What a crash leaves at a
/// moment before that step is what it leaves of a script without a fault, as the disk calls are the same up to there.
fn stops_at(alloc: Global, bench: &mut Bench<MemDisk>, step: usize) -> Result<(), TestFail> {
    let mut marks = NO_MARKS;
    let (stopped, moment) = run(alloc, bench, &mut marks)?;
    hold(stopped == step, "another step meets the fault")?;
    stays_broken(alloc, bench)?;
    are_images(alloc, bench.device.disk(), &marks, moment)
}

#[test]
fn each_disk_call_fails(rt: HostRuntime) -> Result<(), TestFail> {
    for (call, nth, step) in &CALLS {
        let fail = Fail {
            call: *call,
            nth: *nth,
        };
        match start(rt.alloc(), &[fail])? {
            Err(refusal) => is_refused(rt.alloc(), refusal, *step)?,
            Ok(bench) => stops_at(rt.alloc(), bench, *step)?,
        }
    }
    Ok(())
}

/// How many calls of this kind the script makes.
fn last_nth(kind: CallKind) -> u64 {
    let mut last = 0;
    for (call, nth, _) in &CALLS {
        if *call == kind {
            last = *nth;
        }
    }
    last
}

/// Whether the script made so many calls of each kind.
fn made_calls(disk: &MemDisk) -> bool {
    let mut all = true;
    for kind in &KINDS {
        all = all && disk.calls(*kind) == last_nth(*kind);
    }
    all
}

#[test]
fn stopped_at_each_moment(rt: HostRuntime) -> Result<(), TestFail> {
    let bench = two_regions(rt.alloc())?;
    let mut marks = NO_MARKS;
    let (stopped, _) = run(rt.alloc(), bench, &mut marks)?;
    assert!(rt; stopped == 0 && made_calls(bench.device.disk()));
    are_images(rt.alloc(), bench.device.disk(), &marks, 0)
}
