//! What `show` prints of a log's entries.

ghost use Rattle.std.specs.Prelude.{◌≡◌, ◌++◌, IfOk, OnOk, length};
ghost use Rattle.std.specs.FinMap.{empty};
ghost use Rattle.cell_model.specs.Order.{cells_of};
ghost use Rattle.cell_model.specs.Merge.{put_numbered};
ghost use Rattle.script_model.specs.Outputs.{cells_text, show_text};
ghost use Rattle.show_command.specs.Regions.{parts_from};

use crate::regions::cells_by_region;
use entry_frame::Entry;
use kv_cell::{NoMemory, NumberedCells};
use mem_segments::{Row, Segment};
use report_text::{append_cells, append_end, append_region};
use std::alloc::Global;

/// The regions with cells, each with its cells in order, and the last line.
pub fn text_of(alloc: Global, entries: Vec<Entry>) -> Result<Vec<u8>, NoMemory>
    ensures { IfOk result (λ text. text.items ≡ show_text entries.items) }
{
    let mut out = Vec::new(alloc);
    let lists = cells_by_region(alloc, entries)?;
    append_parts(alloc, &mut out, lists)?;
    append_end(&mut out, 0)?;
    Ok(out)
}

/// Appends the parts of the regions from 1 on.
fn append_parts(alloc: Global, out: &mut Vec<u8>, lists: Vec<NumberedCells>) -> Result<(), NoMemory>
    requires { length lists.items ≡ 64 }
    ensures { OnOk result (out.new.items ≡ out.old.items ++ parts_from 1 lists.items) }
{
    let mut region = 1;
    for cells in lists {
        append_part(alloc, out, region, cells)?;
        region += 1;
    }
    Ok(())
}

/// Appends a region's line and its cells in order, nothing where it has none.
fn append_part(
    alloc: Global,
    out: &mut Vec<u8>,
    region: u32,
    cells: NumberedCells,
) -> Result<(), NoMemory>
    ensures { OnOk result (out.new.items ≡ out.old.items ++ cells_text region (cells_of (put_numbered empty cells))) }
{
    let cells = Segment::of_cells(alloc, cells)?;
    append_some(out, region, cells.rows())?;
    Ok(())
}

/// Appends a region's line and these cells, nothing where there are none.
#[tactic(auto, using(crate::proofs::RegionLaws::some_cells))]
fn append_some(out: &mut Vec<u8>, region: u32, rows: &[Row]) -> Result<(), NoMemory>
    ensures { OnOk result (out.new.items ≡ out.old.items ++ cells_text region rows.now) }
{
    if rows.is_empty() {
        return Ok(());
    }
    append_region(out, region)?;
    append_cells(out, rows)?;
    Ok(())
}
