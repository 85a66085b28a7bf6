//! The pass over cells.

ghost use Rattle.std.specs.Prelude.{◌≡◌, IfOk};
ghost use Rattle.cell_model.specs.Merge.{IsRising};
ghost use Rattle.mask_model.specs.Masked.{masked};

use crate::column::{Column, column_at};
use crate::marks::{Marks, marks_at};
use kv_cell::NoMemory;
use mem_segments::{Row, SharedCells};
use std::alloc::Global;

/// What a reader sees of cells in order who asks for so many versions of each column, 0 to 2^64-1: the puts that no delete
/// masks and no later put hides, the newest first, each shared. It goes over the cells once, and over those of a family
/// once more for its deletes, whose timestamps it keeps while it is in the family.
pub fn mask(alloc: Global, cells: &[Row], versions: u64) -> Result<SharedCells, NoMemory>
    requires order { IsRising cells.now }
    ensures seen { IfOk result (λ seen. seen ≡ masked versions cells.now) }
{
    let mut seen = SharedCells::new(alloc);
    let mut marks = Marks::new(alloc);
    let mut column = Column::new(versions);
    for place in 0..cells.len() {
        let row = &cells[place];
        let cell = row.cell();
        marks = marks_at(alloc, cells, place, marks)?;
        column = column_at(cells, place, column, versions);
        if column.pass(cell, marks.cover(cell.ts)) {
            seen.push(row.share()?)?;
        }
    }
    Ok(seen)
}
