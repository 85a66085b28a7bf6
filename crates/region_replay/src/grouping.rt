//! What was read and left of a store, by regions.

ghost use Rattle.std.specs.Prelude.{◌≡◌, ◌≢◌, ◌≤◌, ◌<◌, ◌+◌, [], ℕ, List, length, slice_index_or, Contains, IfOk, OnOk, vec_len};
ghost use Rattle.log_model.specs.declared.name.Name.{Name as TheName};
ghost use Rattle.found_files.specs.declared.found.FoundStore.{FoundStore as TheStore};
ghost use Rattle.wal_split.specs.declared.flushed.RegionFlushed.{RegionFlushed as TheFlushed};
ghost use Rattle.wal_split.specs.declared.job.EditsJob.{EditsJob as TheJob};
ghost use Rattle.wal_split.specs.Left.{IsInRange};
ghost use Rattle.region_replay.specs.Dealt.{IsDealt, IsGood, AreDealt, AreBegun};

use crate::dealing::{deal_entry, deal_name, deal_store};
use crate::found::RegionFiles;
use disk_images::Name;
use entry_frame::Entry;
use found_files::FoundStore;
use kv_cell::{NoMemory, NumberedCells};
use std::alloc::Global;
use std::mem;
use wal_split::{EditsJob, Plan, RegionFlushed, SplitFiles};

/// What a split hands on, by regions: those from 1 to 64 in order. Each name, store and entry is looked at once, and no byte
/// of a cell is copied.
pub(crate) fn regions_of(alloc: Global, split: SplitFiles) -> Result<Vec<RegionFiles>, NoMemory>
    requires { IsInRange split }
    ensures { IfOk result (λ regions. AreDealt split.plan.jobs.items split.plan.flushed.items
        split.names split.stores.items split.plan.kept.items regions.items) }
{
    let SplitFiles {
        names,
        stores,
        plan,
    } = split;
    let Plan {
        jobs,
        logs: _,
        entries: _,
        kept,
        flushed,
    } = plan;
    let mut regions = begin_regions(alloc, jobs, flushed)?;
    deal_names(&mut regions, names.as_slice())?;
    deal_stores(&mut regions, stores)?;
    deal_kept(&mut regions, kept)?;
    Ok(regions)
}

/// The regions with the entries that were written into their edits files, and nothing else yet.
fn begin_regions(
    alloc: Global,
    jobs: Vec<EditsJob>,
    flushed: Vec<RegionFlushed>,
) -> Result<Vec<RegionFiles>, NoMemory>
    requires flushed { length flushed.items ≡ 65 }
    requires jobs { length jobs.items ≡ 64 }
    requires regions { (k : ℕ) (j : TheJob) → k < 64 → (slice_index_or jobs.items k j).name.region ≡ k + 1 }
    ensures { IfOk result (λ regions. AreBegun jobs.items flushed.items regions.items) }
{
    let mut flushed = flushed;
    let mut regions = Vec::with_capacity(alloc, jobs.len())?;
    for job in jobs {
        let upto = take_flushed(alloc, &mut flushed, job.name.region);
        let region = begin_region(alloc, job, upto)?;
        regions.push(region)?;
    }
    Ok(regions)
}

/// Takes out what is flushed of a region.
fn take_flushed(alloc: Global, flushed: &mut Vec<RegionFlushed>, region: u32) -> RegionFlushed
    requires { region < vec_len flushed.old }
    ensures taken { (u : TheFlushed) → result ≡ slice_index_or flushed.old.items region u }
    ensures others { (r : ℕ) (u : TheFlushed) → r ≢ region → slice_index_or flushed.new.items r u ≡ slice_index_or flushed.old.items r u }
    ensures long { vec_len flushed.new ≡ vec_len flushed.old }
{
    mem::replace(&mut flushed[region as usize], RegionFlushed::none(alloc))
}

fn begin_region(
    alloc: Global,
    job: EditsJob,
    flushed: RegionFlushed,
) -> Result<RegionFiles, NoMemory>
    ensures { IfOk result (λ region. IsDealt job job.name.region flushed [] [] [] region) }
{
    let EditsJob { name, entries } = job;
    let mut edits = Vec::new(alloc);
    if !entries.is_empty() {
        edits.push(name)?;
    }
    Ok(RegionFiles {
        region: name.region,
        stored: NumberedCells::new(alloc),
        unflushed: entries,
        flushed,
        next_store: 1,
        edits,
    })
}

fn deal_names(regions: &mut Vec<RegionFiles>, names: &[Name]) -> Result<(), NoMemory>
    requires regions { vec_len regions.old ≡ 64 }
    requires good { (m : TheName) → Contains names.now m → IsGood m }
    ensures { OnOk result ((jobs : List TheJob) (flushed : List TheFlushed) → AreDealt jobs flushed [] [] [] regions.old.items
        → AreDealt jobs flushed names.now [] [] regions.new.items) }
{
    for name in names {
        deal_name(regions, *name)?;
    }
    Ok(())
}

fn deal_stores(regions: &mut Vec<RegionFiles>, stores: Vec<FoundStore>) -> Result<(), NoMemory>
    requires regions { vec_len regions.old ≡ 64 }
    requires good { (y : TheStore) → Contains stores.items y → (1 ≤ y.name.region) × (y.name.region ≤ 64) }
    ensures { OnOk result ((jobs : List TheJob) (flushed : List TheFlushed) (names : List TheName) → AreDealt jobs flushed names [] [] regions.old.items
        → AreDealt jobs flushed names stores.items [] regions.new.items) }
{
    for store in stores {
        deal_store(regions, store)?;
    }
    Ok(())
}

fn deal_kept(regions: &mut Vec<RegionFiles>, kept: Vec<Entry>) -> Result<(), NoMemory>
    requires { vec_len regions.old ≡ 64 }
    ensures { OnOk result ((jobs : List TheJob) (flushed : List TheFlushed) (names : List TheName) (stores : List TheStore)
        → AreDealt jobs flushed names stores [] regions.old.items
        → AreDealt jobs flushed names stores kept.items regions.new.items) }
{
    for entry in kept {
        deal_entry(regions, entry)?;
    }
    Ok(())
}
