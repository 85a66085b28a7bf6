//! A compaction of region 1 is stopped at each moment, and meets a fault at each of its disk calls: the region reads as before
//! or as after then. After a fault one more compaction ends what was begun.

use crate::compact_texts::{IN_THE_PLACE_OF_ONE, STORE_OF_A_DELETE, STORE_OF_A_PUT, THREE_EDITS};
use crate::files::{File, crash_at, disk_of, hold, sink_of};
use crate::opened::opened;
use crate::stops::KINDS;
use command_base::Status;
use compact_command::{CompactKind, compact_region};
use disk_fakes::{CallKind, Fail, MemDisk};
use disk_images::NameKind;
use std::alloc::Global;
use std::test::Fail as TestFail;

/// The files of a store, the kind of the compaction, the region's last sequence id, and how many cells it has before and after.
#[derive(Clone, Copy)]
struct Trial {
    files: &'static [File],
    kind: CompactKind,
    last: u64,
    before: usize,
    after: usize,
}

const TRIALS: [Trial; 3] = [
    Trial {
        files: &[(NameKind::Log, 0, 1, THREE_EDITS)],
        kind: CompactKind::Major,
        last: 3,
        before: 3,
        after: 1,
    },
    Trial {
        files: &[
            (NameKind::Store, 1, 1, STORE_OF_A_PUT),
            (NameKind::Store, 1, 2, STORE_OF_A_DELETE),
        ],
        kind: CompactKind::Minor,
        last: 2,
        before: 2,
        after: 2,
    },
    Trial {
        files: &[
            (NameKind::Store, 1, 1, STORE_OF_A_DELETE),
            (NameKind::Store, 1, 2, IN_THE_PLACE_OF_ONE),
        ],
        kind: CompactKind::Major,
        last: 1,
        before: 1,
        after: 1,
    },
];

/// Compacts region 1, which is to end so.
fn compact(alloc: Global, disk: &mut MemDisk, trial: &Trial, want: Status) -> Result<(), TestFail> {
    let out = sink_of(alloc)?;
    let status = compact_region(alloc, disk, 1, trial.kind, out);
    hold(status == want, "a compaction ended with another status")
}

/// Opens a store, whose region 1 is to go so far, and gives how many cells it has.
fn cells_of(alloc: Global, disk: &mut MemDisk, trial: &Trial) -> Result<usize, TestFail> {
    let recovered = opened(alloc, disk)?;
    let Some(region) = recovered.as_slice().first() else {
        return Err(TestFail::new("there is no region"));
    };
    let goes_so_far = region.base.last == trial.last && region.flushed == trial.last;
    hold(goes_so_far, "the region has another last number")?;
    Ok(region.base.cells.len())
}

/// The region is to read as before or as after.
fn reads(alloc: Global, disk: &mut MemDisk, trial: &Trial) -> Result<(), TestFail> {
    let cells = cells_of(alloc, disk, trial)?;
    let is_either = cells == trial.before || cells == trial.after;
    hold(is_either, "the region reads as it never was")
}

/// The region is to read as after.
fn reads_as_after(alloc: Global, disk: &mut MemDisk, trial: &Trial) -> Result<(), TestFail> {
    let cells = cells_of(alloc, disk, trial)?;
    hold(cells == trial.after, "the region does not read as after")
}

/// The same of so many images of this moment.
fn reads_at(
    alloc: Global,
    disk: &MemDisk,
    trial: &Trial,
    moment: u64,
    choices: u64,
) -> Result<(), TestFail> {
    for choice in 0..choices {
        let image = crash_at(alloc, disk, moment, choice)?;
        reads(alloc, image, trial)?;
    }
    Ok(())
}

/// The same of each moment of a compaction.
fn stop_at_each(alloc: Global, trial: &Trial) -> Result<(), TestFail> {
    let disk = disk_of(alloc, trial.files, &[])?;
    let first = disk.clock();
    compact(alloc, disk, trial, Status::Done)?;
    for moment in first..disk.clock().saturating_add(1) {
        reads_at(alloc, disk, trial, moment, 4)?;
    }
    reads_as_after(alloc, disk, trial)
}

#[test]
fn stopped_at_each_moment(rt: HostRuntime) -> Result<(), TestFail> {
    for trial in &TRIALS {
        stop_at_each(rt.alloc(), trial)?;
    }
    Ok(())
}

/// A compaction meets this fault; the disk and two images of it read as before or as after then, and one more ends it.
fn fail_once(alloc: Global, trial: &Trial, fail: Fail) -> Result<(), TestFail> {
    let disk = disk_of(alloc, trial.files, &[fail])?;
    compact(alloc, disk, trial, Status::DiskFault)?;
    let last = disk.clock();
    reads_at(alloc, disk, trial, last, 2)?;
    reads(alloc, disk, trial)?;
    compact(alloc, disk, trial, Status::Done)?;
    reads_as_after(alloc, disk, trial)
}

/// The same of the calls of this kind from the first of these numbers to before the second.
fn fail_from(
    alloc: Global,
    trial: &Trial,
    call: CallKind,
    first: u64,
    end: u64,
) -> Result<(), TestFail> {
    for nth in first..end {
        fail_once(alloc, trial, Fail { call, nth })?;
    }
    Ok(())
}

/// The same of each call of a compaction.
fn fail_each(alloc: Global, trial: &Trial) -> Result<(), TestFail> {
    let before = disk_of(alloc, trial.files, &[])?;
    let disk = disk_of(alloc, trial.files, &[])?;
    compact(alloc, disk, trial, Status::Done)?;
    for call in &KINDS {
        let first = before.calls(*call).saturating_add(1);
        let end = disk.calls(*call).saturating_add(1);
        fail_from(alloc, trial, *call, first, end)?;
    }
    Ok(())
}

#[test]
fn each_disk_call_fails(rt: HostRuntime) -> Result<(), TestFail> {
    for trial in &TRIALS {
        fail_each(rt.alloc(), trial)?;
    }
    Ok(())
}
