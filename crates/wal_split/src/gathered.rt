//! The entries that are not flushed.

ghost use Rattle.std.specs.Prelude.{◌≡◌, ◌<◌, Contains, length, IfOk, OnOk, IsTrue, ◌↔◌};
ghost use Rattle.cell_model.specs.Cell.{Cell as TheCell};
ghost use Rattle.log_model.specs.Entry.{IsEntry};
ghost use Rattle.found_files.specs.Sorted.{AreOrdered, AllAgree};
ghost use Rattle.wal_split.specs.Flushed.{flushed_of};
ghost use Rattle.wal_split.specs.Unflushed.{AreUnflushedOf, IsAboveBy, IsNew, Adds};

use crate::flushed::RegionFlushed;
use entry_frame::Entry;
use found_files::FoundEntry;
use kv_cell::{Cell, NoMemory};
use log_model::NameKind;
use std::alloc::Global;

/// The entries that are not flushed, each once, in the order of regions and numbers.
#[derive(Drop)]
pub struct Unflushed {
    /// Those that stand in a log.
    pub logged: Vec<Entry>,
    /// Those that stand in edits files alone.
    pub kept: Vec<Entry>,
}

/// The entries with a cell that is not flushed, where these are the last flushed numbers of the regions, the first of them of
/// region 0. The entries are in order, and two of one region and number are the same. No cell is copied.
pub fn gather(
    alloc: Global,
    entries: Vec<FoundEntry>,
    flushed: &[RegionFlushed],
) -> Result<Unflushed, NoMemory>
    requires ordered { AreOrdered entries.items }
    requires agree { AllAgree entries.items }
    requires regions { length flushed.now ≡ 65 }
    ensures { IfOk result (λ found. AreUnflushedOf entries.items flushed.now found.logged.items found.kept.items) }
{
    let mut found = Unflushed {
        logged: Vec::new(alloc),
        kept: Vec::new(alloc),
    };
    let mut region = 0;
    let mut number = 0;
    for x in entries {
        let is_new = is_new(&x, region, number, flushed);
        let place = place_of(&x);
        region = place.0;
        number = place.1;
        add(&mut found, x, is_new)?;
    }
    Ok(found)
}

/// The region and the number of an entry.
fn place_of(x: &FoundEntry) -> (u32, u64)
    ensures { (result.0 ≡ x.now.entry.region) × (result.1 ≡ x.now.entry.number) }
{
    (x.entry.region, x.entry.number)
}

/// Whether an entry is of another region or number than these, and not flushed.
fn is_new(x: &FoundEntry, region: u32, number: u64, flushed: &[RegionFlushed]) -> bool
    requires { length flushed.now ≡ 65 }
    ensures valid { IsEntry x.now.entry }
    ensures new { IsTrue result ↔ IsNew x.now region number flushed.now }
{
    let other = x.entry.region != region || x.entry.number != number;
    other && is_unflushed(&x.entry, &flushed[x.entry.region as usize])
}

/// Whether a cell of an entry is above what is flushed of the cell's family in this region.
fn is_unflushed(entry: &Entry, flushed: &RegionFlushed) -> bool
    ensures { IsTrue result ↔ IsAboveBy (flushed_of flushed.now) entry.now }
{
    if entry.number <= flushed.whole {
        return false;
    }
    flushed.alone.is_empty() || has_unflushed(entry.batch.as_slice(), entry.number, flushed)
}

/// Whether the family of one of these cells is flushed up to a lower number than this one.
fn has_unflushed(cells: &[Cell], number: u64, flushed: &RegionFlushed) -> bool
    ensures { IsTrue result ↔ ((c : TheCell) × Contains cells.now c × (flushed_of flushed.now c.family < number)) }
{
    for cell in cells {
        if flushed.of(cell.family.as_slice()) < number {
            return true;
        }
    }
    false
}

/// Adds an entry that is new.
fn add(found: &mut Unflushed, x: FoundEntry, is_new: bool) -> Result<(), NoMemory>
    ensures { OnOk result (Adds x is_new found.old found.new) }
{
    if !is_new {
        return Ok(());
    }
    match x.name.kind {
        NameKind::Log => found.logged.push(x.entry)?,
        NameKind::Old | NameKind::Store | NameKind::Edits => found.kept.push(x.entry)?,
    }
    Ok(())
}
