//! Rows put in order.

ghost use Rattle.std.specs.Prelude.{◌≡◌, [], ◌∷◌, ◌++◌, IfOk, IsTrue, OnOk};
ghost use Rattle.std.specs.List.{AllByRecursion};
ghost use Rattle.std.specs.FinMap.{empty};
ghost use Rattle.cell_model.specs.Cell.{IsCell};
ghost use Rattle.cell_model.specs.Merge.{IsRising, content_of, put_numbered};

use crate::merging::{merge_rows, share_all};
use crate::row::Row;
use crate::sort_key::sorted_rows;
use kv_cell::{Cell, NoMemory, NumberedCells};
use std::alloc::Global;

/// The cells as rows, in the order in which they were given.
pub(crate) fn numbered_rows(alloc: Global, cells: NumberedCells) -> Result<Vec<Row>, NoMemory>
    ensures rows { IfOk result (λ rows. rows.items ≡ cells) }
    ensures within { OnOk result (AllByRecursion (λ x. IsCell x.1) cells) }
{
    let mut rows = Vec::with_capacity(alloc, cells.len())?;
    for (number, cell) in cells.into_vec() {
        push_new(&mut rows, alloc, number, cell)?;
    }
    Ok(rows)
}

/// Appends a row of its own.
fn push_new(rows: &mut Vec<Row>, alloc: Global, number: u64, cell: Cell) -> Result<(), NoMemory>
    ensures items { OnOk result (rows.new.items ≡ rows.old.items ++ (number, cell) ∷ []) }
    ensures within { OnOk result (IsCell cell) }
{
    rows.push(Row::new(alloc, number, cell)?)?;
    Ok(())
}

/// The rows in order; of two that tie the later one stays. Rows that are in order stay as they are; where no two tie one
/// sort does it.
pub(crate) fn ordered_rows(alloc: Global, rows: Vec<Row>) -> Result<Vec<Row>, NoMemory>
    ensures rising { IfOk result (λ ordered. IsRising ordered.items) }
    ensures content { IfOk result (λ ordered. content_of ordered.items ≡ put_numbered empty rows.items) }
{
    if are_rising(&rows) {
        return Ok(rows);
    }
    let sorted = sorted_rows(alloc, &rows)?;
    if are_rising(&sorted) {
        return Ok(sorted);
    }
    let ordered = halved_rows(alloc, &rows)?;
    Ok(ordered)
}

/// Whether each row comes before the next.
fn are_rising(rows: &[Row]) -> bool
    ensures { IsTrue result → IsRising rows.now }
{
    for place in 1..rows.len() {
        if !rows[place - 1].compare(&rows[place]).is_lt() {
            return false;
        }
    }
    true
}

/// The rows in order, by halves that are merged; of two that tie the later one stays.
fn halved_rows(alloc: Global, rows: &[Row]) -> Result<Vec<Row>, NoMemory>
    ensures rising { IfOk result (λ ordered. IsRising ordered.items) }
    ensures content { IfOk result (λ ordered. content_of ordered.items ≡ put_numbered empty rows.now) }
{
    if rows.len() < 2 {
        let mut few = Vec::new(alloc);
        share_all(&mut few, rows)?;
        return Ok(few);
    }
    let half = rows.len() / 2;
    let first = halved_rows(alloc, &rows[..half])?;
    let second = halved_rows(alloc, &rows[half..])?;
    let ordered = merge_rows(alloc, &first, &second)?;
    Ok(ordered)
}
