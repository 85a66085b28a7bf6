//! An opening, a split, and the replay of one region alone after a split. Each is stopped at each moment, and meets a fault
//! at each of its disk calls: the store is opened then, and nothing is lost.

ghost use Rattle.std.specs.Prelude.{◌≡◌, OnOk, IfOk};
ghost use Rattle.log_model.specs.declared.name.NameKind.TheVariants as kinds;
ghost use Rattle.disk_fakes.specs.Views.{view_of};

use crate::files::{File, crash_at, disk_of, hold};
use crate::opened::{Kept, ONE_EDIT, opens_again};
use crate::replays::split_whole;
use crate::versions::{FORMER, FOUR_EDITS, MIXED, THREE_EDITS};
use crate::worked::{ALL_FLUSHED, BETWEEN_TWO_EDITS_FILES, STORED_AND_LOGGED, TWO_EDITS};
use disk_fakes::{CallKind, Fail, MemDisk};
use found_files::SplitRefusal;
use region_replay::{recover_all, replay};
use std::alloc::Global;
use std::test::Fail as TestFail;
use wal_split::split;

/// What is stopped, or meets a fault.
#[derive(Clone, Copy)]
enum Step {
    Open,
    Split,
    /// The replay of this region, of a store that was split.
    Replay(u32),
}

/// The files of a store, a step, and what the regions have, from region 1 on, whenever the store is opened after it.
#[derive(Clone, Copy)]
struct Trial {
    files: &'static [File],
    step: Step,
    regions: &'static [Kept],
}

const TRIALS: [Trial; 9] = [
    Trial {
        files: BETWEEN_TWO_EDITS_FILES,
        step: Step::Open,
        regions: &[ONE_EDIT, ONE_EDIT],
    },
    Trial {
        files: STORED_AND_LOGGED,
        step: Step::Split,
        regions: &[TWO_EDITS],
    },
    Trial {
        files: BETWEEN_TWO_EDITS_FILES,
        step: Step::Replay(1),
        regions: &[ONE_EDIT, ONE_EDIT],
    },
    Trial {
        files: BETWEEN_TWO_EDITS_FILES,
        step: Step::Replay(2),
        regions: &[ONE_EDIT, ONE_EDIT],
    },
    Trial {
        files: STORED_AND_LOGGED,
        step: Step::Replay(1),
        regions: &[TWO_EDITS],
    },
    Trial {
        files: ALL_FLUSHED,
        step: Step::Replay(1),
        regions: &[ONE_EDIT],
    },
    Trial {
        files: ALL_FLUSHED,
        step: Step::Replay(64),
        regions: &[ONE_EDIT],
    },
    Trial {
        files: FORMER,
        step: Step::Open,
        regions: &[THREE_EDITS],
    },
    Trial {
        files: MIXED,
        step: Step::Replay(1),
        regions: &[FOUR_EDITS],
    },
];

/// The kinds of disk calls.
pub(crate) const KINDS: [CallKind; 9] = [
    CallKind::Names,
    CallKind::Size,
    CallKind::Read,
    CallKind::Create,
    CallKind::WriteAt,
    CallKind::Sync,
    CallKind::Rename,
    CallKind::Remove,
    CallKind::Settle,
];

/// The disk before the step, whose calls of these kinds and numbers fail.
fn begin(alloc: Global, trial: &Trial, fails: &[Fail]) -> Result<&'static mut MemDisk, TestFail>
    ensures { IfOk result (λ disk. (m : _) → m.kind ≡ kinds.Store → ¬ (view_of disk.now).gone m) }
{
    let disk = disk_of(alloc, trial.files, fails)?;
    prepare(alloc, disk, trial.step)?;
    Ok(disk)
}

/// Splits the store where that comes before the step.
fn prepare(alloc: Global, disk: &mut MemDisk, step: Step) -> Result<(), TestFail>
    requires { (m : _) → m.kind ≡ kinds.Store → ¬ (view_of disk.old).gone m }
    ensures { OnOk result ((m : _) → m.kind ≡ kinds.Store → ¬ (view_of disk.new).gone m) }
{
    match step {
        Step::Open | Step::Split => Ok(()),
        Step::Replay(_) => split_whole(alloc, disk),
    }
}

/// Does the step, and gives the refusal.
fn refusal_of(
    alloc: Global,
    disk: &mut MemDisk,
    step: Step,
) -> Result<Option<SplitRefusal>, TestFail>
    requires { (m : _) → m.kind ≡ kinds.Store → ¬ (view_of disk.old).gone m }
{
    match step {
        Step::Open => Ok(recover_all(alloc, disk).err()),
        Step::Split => Ok(split(alloc, disk).err()),
        Step::Replay(region) => replay_of(alloc, disk, region),
    }
}

/// Replays a region, and gives the refusal.
fn replay_of(
    alloc: Global,
    disk: &mut MemDisk,
    region: u32,
) -> Result<Option<SplitRefusal>, TestFail>
    requires { (m : _) → m.kind ≡ kinds.Store → ¬ (view_of disk.old).gone m }
{
    if region == 0 || region > 64 {
        return Err(TestFail::new("no such region"));
    }
    Ok(replay(alloc, disk, region).err())
}

/// Does the step, which is to be done.
fn is_done(alloc: Global, disk: &mut MemDisk, step: Step) -> Result<(), TestFail>
    requires { (m : _) → m.kind ≡ kinds.Store → ¬ (view_of disk.old).gone m }
{
    let refusal = refusal_of(alloc, disk, step)?;
    hold(refusal.is_none(), "a step is refused")
}

/// Does the step, which is to meet the disk's fault.
fn is_refused(alloc: Global, disk: &mut MemDisk, step: Step) -> Result<(), TestFail>
    requires { (m : _) → m.kind ≡ kinds.Store → ¬ (view_of disk.old).gone m }
{
    let refusal = refusal_of(alloc, disk, step)?;
    let is_fault = matches!(refusal, Some(SplitRefusal::DiskFault));
    hold(is_fault, "a step doesn't meet the disk's fault")
}

/// Each image of this moment is to be opened to what the regions have.
fn opens_at(alloc: Global, disk: &MemDisk, moment: u64, regions: &[Kept]) -> Result<(), TestFail> {
    for choice in 0..4 {
        let image = crash_at(alloc, disk, moment, choice)?;
        opens_again(alloc, image, regions)?;
    }
    Ok(())
}

/// The same of each moment of the step.
fn stop_at_each(alloc: Global, trial: &Trial) -> Result<(), TestFail> {
    let disk = begin(alloc, trial, &[])?;
    let first = disk.clock();
    is_done(alloc, disk, trial.step)?;
    for moment in first..disk.clock().saturating_add(1) {
        opens_at(alloc, disk, moment, trial.regions)?;
    }
    Ok(())
}

#[test]
fn stopped_at_each_moment(rt: HostRuntime) -> Result<(), TestFail> {
    for trial in &TRIALS {
        stop_at_each(rt.alloc(), trial)?;
    }
    Ok(())
}

/// The step meets this fault. The disk and each image of it are to be opened to what the regions have then.
fn fail_once(alloc: Global, trial: &Trial, fail: Fail) -> Result<(), TestFail> {
    let disk = begin(alloc, trial, &[fail])?;
    is_refused(alloc, disk, trial.step)?;
    opens_at(alloc, disk, disk.clock(), trial.regions)?;
    opens_again(alloc, disk, trial.regions)
}

/// The same of the calls of this kind from the first of these numbers to before the second.
fn fail_from(
    alloc: Global,
    trial: &Trial,
    call: CallKind,
    first: u64,
    end: u64,
) -> Result<(), TestFail> {
    for nth in first..end {
        fail_once(alloc, trial, Fail { call, nth })?;
    }
    Ok(())
}

/// The same of each call of the step.
fn fail_each(alloc: Global, trial: &Trial) -> Result<(), TestFail> {
    let before = begin(alloc, trial, &[])?;
    let disk = begin(alloc, trial, &[])?;
    is_done(alloc, disk, trial.step)?;
    for call in &KINDS {
        let first = before.calls(*call).saturating_add(1);
        let end = disk.calls(*call).saturating_add(1);
        fail_from(alloc, trial, *call, first, end)?;
    }
    Ok(())
}

#[test]
fn each_disk_call_fails(rt: HostRuntime) -> Result<(), TestFail> {
    for trial in &TRIALS {
        fail_each(rt.alloc(), trial)?;
    }
    Ok(())
}
