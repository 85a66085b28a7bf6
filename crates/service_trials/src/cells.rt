//! Cells that are put.

use kv_cell::{Batch, Cell};
use std::alloc::Global;

/// Adds a cell in this row.
fn push_cell(alloc: Global, cells: &mut Vec<Cell>, row: u8) -> Option<()> {
    let cell = Cell::new(alloc, &[row], b"f", b"q", 1, 4, b"v").ok()?;
    cells.push(cell).ok()
}

/// A batch of one cell in each of these rows. None is out of memory, or that there is no row.
pub(crate) fn batch_of(alloc: Global, rows: &[u8]) -> Option<Batch> {
    let mut cells = Vec::new(alloc);
    for row in rows {
        push_cell(alloc, &mut cells, *row)?;
    }
    Batch::new(cells).ok()
}
