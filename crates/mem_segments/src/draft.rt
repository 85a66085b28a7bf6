//! The cells of one edit in order, before the edit has its number.

ghost use Rattle.std.specs.Prelude.{◌≡◌, ◌<◌, [], ◌∷◌, ◌++◌, length, map, IfOk, OnOk};
ghost use Rattle.std.specs.Arc.{arc_value};
ghost use Rattle.cell_model.specs.Merge.{at_number};
ghost use Rattle.mem_segments.specs.Draft.{IsDraftOf};
ghost use Rattle.mem_segments.specs.Shared.{cell_at};

use crate::ordering::ordered_rows;
use crate::row::Row;
use kv_cell::{Batch, NoMemory};
use std::alloc::Global;
use std::marker::Model;
use std::sync::Arc;

/// Cells of one edit in order, of which each key stands once, whose number comes later. Contracts see the list.
// Each row has the number 0 until then.
#[derive(Drop)]
pub struct Draft {
    pub(crate) rows: Vec<Row>,
}

impl Model for Draft {
    ghost use Rattle.std.specs.Prelude.{◌≡◌, List, map};
    ghost use Rattle.cell_model.specs.Cell.{Cell as TheCell};
    ghost use Rattle.cell_model.specs.Order.{NumberedCell};
    ghost use Rattle.cell_model.specs.Merge.{IsRising, at_number};

    ghost Value = { List TheCell };

    ghost view = { λ d. map (λ (x : NumberedCell). x.1) d.rows.items };

    ghost invariant = { λ d. IsRising d.rows.items × (d.rows.items ≡ at_number 0 (map (λ (x : NumberedCell). x.1) d.rows.items)) };
}

impl Draft {
    /// The batch's cells in order, which it shares: no byte of them is copied. Of two with one key the later one stays.
    pub fn new(alloc: Global, batch: &Arc<Batch, Global>) -> Result<Draft, NoMemory>
        ensures { IfOk result (λ draft. IsDraftOf draft (arc_value batch.now).cells) }
    {
        let rows = draft_rows(alloc, batch)?;
        let rows = ordered_rows(alloc, rows)?;
        Ok(Draft { rows })
    }
}

/// The cells at number 0, in their order.
fn draft_rows(alloc: Global, batch: &Arc<Batch, Global>) -> Result<Vec<Row>, NoMemory>
    ensures { IfOk result (λ rows. rows.items ≡ at_number 0 (arc_value batch.now).cells) }
{
    let mut rows = Vec::with_capacity(alloc, batch.len())?;
    // A batch has at most 1,024 cells.
    for place in 0..batch.len() as u16 {
        push_place(&mut rows, batch, place)?;
    }
    Ok(rows)
}

/// Appends the batch's cell at this place, below their number.
fn push_place(rows: &mut Vec<Row>, batch: &Arc<Batch, Global>, place: u16) -> Result<(), NoMemory>
    requires { place < length (arc_value batch.now).cells }
    ensures { OnOk result (rows.new.items ≡ rows.old.items ++ (0, cell_at (arc_value batch.now).cells place) ∷ []) }
{
    rows.push(Row::of_batch(batch, place)?)?;
    Ok(())
}

/// Writes one number over that of each row.
pub(crate) fn renumber(rows: &mut [Row], number: u64)
    ensures { rows.new ≡ map (λ x. (number, x.1)) rows.old }
{
    for row in rows.iter_mut() {
        row.set_number(number);
    }
}
