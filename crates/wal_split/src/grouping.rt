//! The edits files of a split: one for each region.

ghost use Rattle.std.specs.Prelude.{◌≡◌, ◌≤◌, ◌++◌, ◌∷◌, [], IfOk, OnOk, vec_len};
ghost use Rattle.log_model.specs.Entry.{IsEntry};
ghost use Rattle.wal_split.specs.Grouped.{AreJobsOf, AreEmptyJobs, AddsTo};

use crate::job::EditsJob;
use disk_images::{Name, NameKind};
use entry_frame::Entry;
use kv_cell::NoMemory;
use log_model::REGIONS;
use std::alloc::Global;

/// An edits file of this number for each region 1 to 64, with the region's entries in their order. No cell is copied.
pub(crate) fn jobs_of(
    alloc: Global,
    entries: Vec<Entry>,
    number: u64,
) -> Result<Vec<EditsJob>, NoMemory>
    ensures { IfOk result (λ jobs. AreJobsOf entries.items number jobs.items) }
{
    let mut jobs = empty_jobs(alloc, number)?;
    for entry in entries {
        add_to(&mut jobs, entry)?;
    }
    Ok(jobs)
}

/// An edits file without entries for each region.
fn empty_jobs(alloc: Global, number: u64) -> Result<Vec<EditsJob>, NoMemory>
    ensures { IfOk result (λ jobs. AreEmptyJobs number 64 jobs.items) }
{
    let mut jobs = Vec::with_capacity(alloc, REGIONS as usize)?;
    for before in 0..REGIONS {
        let name = Name {
            kind: NameKind::Edits,
            region: before + 1,
            number,
        };
        let entries = Vec::new(alloc);
        jobs.push(EditsJob { name, entries })?;
    }
    Ok(jobs)
}

/// Adds an entry to the edits file of its region.
fn add_to(jobs: &mut Vec<EditsJob>, entry: Entry) -> Result<(), NoMemory>
    requires { vec_len jobs.old ≡ 64 }
    ensures in_range { (1 ≤ entry.region) × (entry.region ≤ 64) }
    ensures valid { IsEntry entry }
    ensures added { OnOk result (AddsTo entry jobs.old.items jobs.new.items) }
{
    add_entry(&mut jobs[entry.region as usize - 1], entry)
}

fn add_entry(job: &mut EditsJob, entry: Entry) -> Result<(), NoMemory>
    ensures valid { IsEntry entry }
    ensures added { OnOk result ((job.new.name ≡ job.old.name) × (job.new.entries.items ≡ job.old.entries.items ++ entry ∷ [])) }
{
    job.entries.push(entry)?;
    Ok(())
}
