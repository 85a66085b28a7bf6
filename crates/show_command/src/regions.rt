//! The cells of a log's entries, by region.

ghost use Rattle.std.specs.Prelude.{◌≡◌, ◌-◌, ◌≤◌, ◌++◌, [], IfOk, OnOk, replicate, slice_index_or, slice_set, vec_len};
ghost use Rattle.cell_model.specs.Merge.{at_number};
ghost use Rattle.show_command.specs.Regions.{by_region};

use entry_frame::Entry;
use kv_cell::{Cell, NoMemory, NumberedCells};
use log_model::REGIONS;
use std::alloc::Global;

/// The cells of regions 1 to 64, each with the number of its entry, in the order of the entries. No cell is copied.
pub fn cells_by_region(alloc: Global, entries: Vec<Entry>) -> Result<Vec<NumberedCells>, NoMemory>
    ensures { IfOk result (λ lists. lists.items ≡ by_region entries.items) }
{
    let mut lists = empty_lists(alloc)?;
    for entry in entries {
        add_entry(&mut lists, entry)?;
    }
    Ok(lists)
}

/// A list without a cell for each region.
fn empty_lists(alloc: Global) -> Result<Vec<NumberedCells>, NoMemory>
    ensures { IfOk result (λ lists. lists.items ≡ replicate 64 []) }
{
    let mut lists = Vec::with_capacity(alloc, REGIONS as usize)?;
    for _ in 0..REGIONS {
        lists.push(NumberedCells::new(alloc))?;
    }
    Ok(lists)
}

/// Adds the cells of an entry after those of its region.
fn add_entry(lists: &mut Vec<NumberedCells>, entry: Entry) -> Result<(), NoMemory>
    requires { vec_len lists.old ≡ 64 }
    ensures in_range { (1 ≤ entry.region) × (entry.region ≤ 64) }
    ensures added { OnOk result (lists.new.items
        ≡ slice_set lists.old.items (entry.region - 1) (slice_index_or lists.old.items (entry.region - 1) [] ++ at_number entry.number entry.batch.cells)) }
{
    let Entry {
        region,
        number,
        batch,
        ..
    } = entry;
    add_cells(&mut lists[region as usize - 1], number, batch.into_vec())
}

/// Adds the cells of one edit.
fn add_cells(list: &mut NumberedCells, number: u64, cells: Vec<Cell>) -> Result<(), NoMemory>
    ensures { OnOk result (list.new ≡ list.old ++ at_number number cells.items) }
{
    for cell in cells {
        list.push(number, cell)?;
    }
    Ok(())
}
