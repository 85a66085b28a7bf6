//! Two segments merged.

ghost use Rattle.std.specs.Prelude.{◌≡◌, ◌≤◌, ◌+◌, [], ◌∷◌, ◌++◌, IfOk};
ghost use Rattle.cell_model.specs.Join.{joined};
ghost use Rattle.cell_model.specs.Merge.{by_turn, merged};
ghost use Rattle.cell_model.specs.Order.{numbered_cmp};

use crate::row::Row;
use crate::segment::Segment;
use kv_cell::NoMemory;
use std::alloc::Global;
use std::cmp::Ordering;

/// The cells of both; of a key and number that stands in both, the second's. It shares each row once, and takes a
/// time linear in their lengths.
pub fn merge(alloc: Global, a: &Segment, b: &Segment) -> Result<Segment, NoMemory>
    ensures { IfOk result (λ segment. segment ≡ joined (a.now ∷ b.now ∷ [])) }
{
    let rows = merge_rows(alloc, &a.rows, &b.rows)?;
    Ok(Segment { rows })
}

/// The rows of both by turns.
pub(crate) fn merge_rows(alloc: Global, a: &[Row], b: &[Row]) -> Result<Vec<Row>, NoMemory>
    ensures { IfOk result (λ rows. rows.items ≡ merged a.now b.now) }
{
    let mut rows = Vec::with_capacity(alloc, a.len() + b.len())?;
    let mut first = a;
    let mut second = b;
    while !first.is_empty() && !second.is_empty() {
        let x = &first[0];
        let y = &second[0];
        let (next, i, j) = turn(x, y);
        push_shared(&mut rows, next)?;
        first = &first[i..];
        second = &second[j..];
    }
    share_all(&mut rows, first)?;
    share_all(&mut rows, second)?;
    Ok(rows)
}

/// The row that comes next, of two that tie the second, and how many it passes of each list.
fn turn<'a>(x: &'a Row, y: &'a Row) -> (&'a Row, usize, usize)
    ensures next { result.0.now ≡ by_turn (numbered_cmp x.now y.now) x.now y.now y.now }
    ensures first { result.1 ≡ by_turn (numbered_cmp x.now y.now) 1 1 0 }
    ensures second { result.2 ≡ by_turn (numbered_cmp x.now y.now) 0 1 1 }
    ensures few { (result.1 ≤ 1) × (result.2 ≤ 1) × (1 ≤ result.1 + result.2) }
{
    match x.compare(y) {
        Ordering::Less => (x, 1, 0),
        Ordering::Equal => (y, 1, 1),
        Ordering::Greater => (y, 0, 1),
    }
}

/// Appends the same row, shared.
pub(crate) fn push_shared(rows: &mut Vec<Row>, row: &Row) -> Result<(), NoMemory>
    ensures { IfOk result (λ _. rows.new.items ≡ rows.old.items ++ row.now ∷ []) }
{
    rows.push(row.share()?)?;
    Ok(())
}

/// Appends the same rows, shared.
pub(crate) fn share_all(rows: &mut Vec<Row>, more: &[Row]) -> Result<(), NoMemory>
    ensures { IfOk result (λ _. rows.new.items ≡ rows.old.items ++ more.now) }
{
    for row in more {
        push_shared(rows, row)?;
    }
    Ok(())
}
