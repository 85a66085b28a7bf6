//! What a split will write and rename, told from what was read.

ghost use Rattle.std.specs.Prelude.{◌≤◌, ◌^◌, Contains, IfOk};
ghost use Rattle.log_model.specs.declared.name.Name.{Name as TheName};
ghost use Rattle.found_files.specs.declared.found.FoundStore.{FoundStore as TheStore};
ghost use Rattle.found_files.specs.Sorted.{AreOrdered, AllAgree};
ghost use Rattle.wal_split.specs.Planned.{IsPlan};

use crate::flushed::{RegionFlushed, flushed_numbers};
use crate::gathered::gather;
use crate::grouping::jobs_of;
use crate::job::EditsJob;
use crate::numbering::{log_numbers, next_number};
use disk_images::Name;
use entry_frame::Entry;
use found_files::{FoundEntry, FoundStore};
use kv_cell::NoMemory;
use std::alloc::Global;

/// The edits files that are to be written, and the logs that are to be renamed.
#[derive(Drop)]
pub struct Plan {
    /// An edits file for each region, some without entries.
    pub jobs: Vec<EditsJob>,
    /// The numbers of the logs, rising.
    pub logs: Vec<u64>,
    /// How many entries go into edits files.
    pub entries: u64,
    /// The entries with a cell that is not flushed, which stand in edits files alone.
    pub kept: Vec<Entry>,
    /// Up to which sequence ids each region is flushed; the first is of region 0.
    pub flushed: Vec<RegionFlushed>,
}

/// Plans the split of these entries, which are in order and agree, beside these stores, which count. No cell is copied.
pub(crate) fn plan_split(
    alloc: Global,
    names: &[Name],
    entries: Vec<FoundEntry>,
    stores: &[FoundStore],
) -> Result<Plan, NoMemory>
    requires numbers { (m : TheName) → Contains names.now m → m.number ≤ 2 ^ 62 }
    requires regions { (x : TheStore) → Contains stores.now x → x.name.region ≤ 64 }
    requires ordered { AreOrdered entries.items }
    requires agree { AllAgree entries.items }
    ensures { IfOk result (λ plan. IsPlan names.now entries.items stores.now plan) }
{
    let flushed = flushed_numbers(alloc, stores)?;
    let logs = log_numbers(alloc, names)?;
    let pending = gather(alloc, entries, &flushed)?;
    let count = pending.logged.len() as u64;
    let jobs = jobs_of(alloc, pending.logged, next_number(names))?;
    Ok(Plan {
        jobs,
        logs,
        entries: count,
        kept: pending.kept,
        flushed,
    })
}
