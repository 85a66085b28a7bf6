//! What was read of one region, made ready for its replay.

ghost use Rattle.std.specs.Prelude.{◌≡◌, ◌≤◌, ◌<◌, ◌+◌, ◌^◌, ◌⊎◌, ◌++◌, ◌∷◌, [], Contains, IfOk, OnOk};
ghost use Rattle.log_model.specs.declared.name.NameKind.TheVariants as kinds;
ghost use Rattle.log_model.specs.Entry.{Entry as TheEntry, IsEntry};
ghost use Rattle.log_model.specs.Recovered.{entries_of};
ghost use Rattle.found_files.specs.declared.found.FoundStore.{FoundStore as TheStore};
ghost use Rattle.found_files.specs.Sorted.{AreOrdered, AllAgree};
ghost use Rattle.region_replay.specs.Alone.{edits_among, IsNextStore, IsRegionOf};
ghost use Rattle.region_replay.specs.Dealt.{cells_of};

use crate::dealing::append_cells;
use crate::found::RegionFiles;
use disk_images::{Name, NameKind};
use entry_frame::Entry;
use found_files::{FoundFiles, FoundStore, RegionFinding, counting_stores};
use kv_cell::{NoMemory, NumberedCells};
use std::alloc::Global;
use wal_split::{flushed_numbers, gather};

/// The greatest number of a store.
const LAST_STORE: u64 = 0x8000_0000_0000_0000;

/// What was read of one region, for its replay. No byte of a cell is copied. No memory too where no number up to 2^63 is
/// left for a store.
pub(crate) fn region_of(
    alloc: Global,
    region: u32,
    found: RegionFinding,
) -> Result<RegionFiles, NoMemory>
    requires region { region ≤ 64 }
    requires stores { (y : TheStore) → Contains found.files.stores.items y → y.name.region ≤ 64 }
    requires ordered { AreOrdered found.files.entries.items }
    requires agree { AllAgree found.files.entries.items }
    ensures { IfOk result (λ x. IsRegionOf region found.names.items
        found.files.entries.items found.files.stores.items x) }
{
    let RegionFinding { names, files } = found;
    let FoundFiles { entries, stores } = files;
    let next_store = next_store(&names)?;
    let edits = edits_of(alloc, &names)?;
    let stores = counting_stores(alloc, stores)?;
    let mut numbers = flushed_numbers(alloc, &stores)?;
    let pending = gather(alloc, entries, &numbers)?;
    let unflushed = of_region(alloc, region, pending.kept)?;
    let stored = all_cells(alloc, stores)?;
    let flushed = numbers.swap_remove(region as usize);
    Ok(RegionFiles {
        region,
        stored,
        unflushed,
        flushed,
        next_store,
        edits,
    })
}

/// The number of the next store beside those among these names. No memory too where no number up to 2^63 is left for it.
pub(crate) fn next_store(names: &[Name]) -> Result<u64, NoMemory>
    ensures { IfOk result (λ next. IsNextStore names.now next) }
{
    let mut next = 1;
    for name in names {
        next = raised(next, *name)?;
    }
    Ok(next)
}

/// This number, or one above that of a store where it is greater.
fn raised(next: u64, name: Name) -> Result<u64, NoMemory>
    requires { next ≤ 2 ^ 63 }
    ensures low { IfOk result (λ n. (next ≤ n) × (n ≤ 2 ^ 63)) }
    ensures above { IfOk result (λ n. name.kind ≡ kinds.Store → name.number < n) }
    ensures one { IfOk result (λ n. (n ≡ next) ⊎ ((name.kind ≡ kinds.Store) × (n ≡ name.number + 1))) }
{
    match name.kind {
        NameKind::Store => above(next, name.number),
        NameKind::Log | NameKind::Old | NameKind::Edits => Ok(next),
    }
}

fn above(next: u64, number: u64) -> Result<u64, NoMemory>
    requires { next ≤ 2 ^ 63 }
    ensures low { IfOk result (λ n. (next ≤ n) × (n ≤ 2 ^ 63)) }
    ensures above { IfOk result (λ n. number < n) }
    ensures one { IfOk result (λ n. (n ≡ next) ⊎ (n ≡ number + 1)) }
{
    if number < next {
        return Ok(next);
    }
    if number >= LAST_STORE {
        return Err(NoMemory);
    }
    Ok(number + 1)
}

/// The names of edits files among these.
fn edits_of(alloc: Global, names: &[Name]) -> Result<Vec<Name>, NoMemory>
    ensures { IfOk result (λ edits. edits.items ≡ edits_among names.now) }
{
    let mut edits = Vec::new(alloc);
    for name in names {
        add_edits(&mut edits, *name)?;
    }
    Ok(edits)
}

fn add_edits(edits: &mut Vec<Name>, name: Name) -> Result<(), NoMemory>
    ensures { OnOk result (edits.new.items ≡ edits.old.items ++ edits_among (name ∷ [])) }
{
    match name.kind {
        NameKind::Edits => {
            edits.push(name)?;
            Ok(())
        }
        NameKind::Log | NameKind::Old | NameKind::Store => Ok(()),
    }
}

/// The entries of this region.
fn of_region(alloc: Global, region: u32, entries: Vec<Entry>) -> Result<Vec<Entry>, NoMemory>
    ensures valid { IfOk result (λ own. (e : TheEntry) → Contains own.items e → IsEntry e) }
    ensures of { IfOk result (λ own. own.items ≡ entries_of region entries.items) }
{
    let mut own = Vec::new(alloc);
    for entry in entries {
        add_own(&mut own, region, entry)?;
    }
    Ok(own)
}

fn add_own(own: &mut Vec<Entry>, region: u32, entry: Entry) -> Result<(), NoMemory>
    ensures valid { IsEntry entry }
    ensures added { OnOk result (own.new.items ≡ own.old.items ++ entries_of region (entry ∷ [])) }
{
    if entry.region == region {
        own.push(entry)?;
    }
    Ok(())
}

/// The cells of these stores, one after the other. No byte of a cell is copied.
pub(crate) fn all_cells(alloc: Global, stores: Vec<FoundStore>) -> Result<NumberedCells, NoMemory>
    ensures { IfOk result (λ cells. cells ≡ cells_of stores.items) }
{
    let mut cells = NumberedCells::new(alloc);
    for store in stores {
        let FoundStore { text, .. } = store;
        append_cells(&mut cells, text.cells)?;
    }
    Ok(cells)
}
