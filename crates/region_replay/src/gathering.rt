//! The cells of a region.

ghost use Rattle.std.specs.Prelude.{◌≡◌, [], ◌∷◌, ◌++◌, IfOk, OnOk};
ghost use Rattle.std.specs.FinMap.{empty};
ghost use Rattle.cell_model.specs.Join.{joined};
ghost use Rattle.cell_model.specs.Merge.{at_number, put_numbered};
ghost use Rattle.wal_split.specs.Flushed.{flushed_of};
ghost use Rattle.region_replay.specs.Bases.{cells_above, entries_cells};
ghost use Rattle.region_replay.specs.Regions.{IsTop};

use entry_frame::Entry;
use kv_cell::{Cell, NoMemory, NumberedCells};
use mem_segments::{Base, Segment, merge};
use std::alloc::Global;
use std::sync::Arc;
use wal_split::RegionFlushed;

/// The cells of these entries that are above what is flushed of their families, each with its entry's sequence id. No byte
/// is copied.
pub(crate) fn entry_cells(
    alloc: Global,
    entries: Vec<Entry>,
    flushed: &RegionFlushed,
) -> Result<NumberedCells, NoMemory>
    ensures { IfOk result (λ cells. cells ≡ entries_cells (flushed_of flushed.now) entries.items) }
{
    let mut cells = NumberedCells::new(alloc);
    for entry in entries {
        add_cells(&mut cells, entry, flushed)?;
    }
    Ok(cells)
}

/// Adds the unflushed cells of an entry.
fn add_cells(
    cells: &mut NumberedCells,
    entry: Entry,
    flushed: &RegionFlushed,
) -> Result<(), NoMemory>
    ensures { OnOk result (cells.new ≡ cells.old
        ++ at_number entry.number (cells_above (flushed_of flushed.now) entry.number entry.batch.cells)) }
{
    let number = entry.number;
    push_above(cells, number, entry.batch.into_vec(), flushed)
}

/// Adds those of these cells that are above what is flushed of their families, with this sequence id.
fn push_above(
    cells: &mut NumberedCells,
    number: u64,
    more: Vec<Cell>,
    flushed: &RegionFlushed,
) -> Result<(), NoMemory>
    ensures { OnOk result (cells.new ≡ cells.old ++ at_number number (cells_above (flushed_of flushed.now) number more.items)) }
{
    for cell in more {
        push_unflushed(cells, number, cell, flushed)?;
    }
    Ok(())
}

/// Adds a cell where this sequence id is above what is flushed of its family.
fn push_unflushed(
    cells: &mut NumberedCells,
    number: u64,
    cell: Cell,
    flushed: &RegionFlushed,
) -> Result<(), NoMemory>
    ensures { OnOk result (cells.new ≡ cells.old ++ at_number number (cells_above (flushed_of flushed.now) number (cell ∷ []))) }
{
    if flushed.of(cell.family.as_slice()) < number {
        cells.push(number, cell)?;
    }
    Ok(())
}

/// What a region is opened with where nothing is unflushed: the stored cells.
pub(crate) fn base_of(alloc: Global, stored: NumberedCells, last: u64) -> Result<Base, NoMemory>
    ensures { IfOk result (λ base. (base.content ≡ put_numbered empty stored) × (base.last ≡ last)) }
{
    let cells = Arc::new(alloc, Segment::of_cells(alloc, stored)?)?;
    Ok(Base { cells, last })
}

/// What a region is opened with: the stored cells and the unflushed ones, the later of two equal ones kept. No cell is
/// ordered again, and none is copied.
pub(crate) fn base_with(
    alloc: Global,
    stored: Segment,
    unflushed: Segment,
    last: u64,
) -> Result<Base, NoMemory>
    ensures { IfOk result (λ base. (base.content ≡ joined (stored ∷ unflushed ∷ [])) × (base.last ≡ last)) }
{
    let cells = Arc::new(alloc, join(alloc, stored, unflushed)?)?;
    Ok(Base { cells, last })
}

/// The cells of both, the later of two equal ones kept. Where the first has none, the second is handed on.
fn join(alloc: Global, stored: Segment, unflushed: Segment) -> Result<Segment, NoMemory>
    ensures { IfOk result (λ segment. segment ≡ joined (stored ∷ unflushed ∷ [])) }
{
    if stored.is_empty() {
        return Ok(unflushed);
    }
    merge(alloc, &stored, &unflushed)
}

/// The greatest of this number and the sequence ids of these entries.
pub(crate) fn last_number(entries: &[Entry], low: u64) -> u64
    ensures { IsTop entries.now low result }
{
    let mut last = low;
    for entry in entries {
        last = last.max(entry.number);
    }
    last
}
