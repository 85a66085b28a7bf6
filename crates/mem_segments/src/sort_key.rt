//! Rows sorted by the first bytes of their row keys, so that most are told apart without a look at a cell.

ghost use Rattle.std.specs.Prelude.{◌≡◌, map, IfOk};
ghost use Rattle.std.specs.List.Sorted.{IsPermutation};

use crate::merging::push_shared;
use crate::row::Row;
use kv_cell::NoMemory;
use std::alloc::Global;
use std::cmp::Ordering;

/// A row beside the first bytes of its row key as a number. Rows whose numbers differ come in the order of these.
#[derive(Clone, Copy)]
struct SortKey<'a> {
    prefix: u64,
    row: &'a Row,
}

impl SortKey<'_> {
    fn compare(&self, other: &SortKey<'_>) -> Ordering {
        match self.prefix.cmp(&other.prefix) {
            Ordering::Equal => self.row.compare(other.row),
            decided => decided,
        }
    }
}

/// The same rows, sorted. Where no two tie they are in order.
// The contract says only that they are the same rows: the caller looks whether they are in order.
pub(crate) fn sorted_rows(alloc: Global, rows: &[Row]) -> Result<Vec<Row>, NoMemory>
    ensures { IfOk result (λ sorted. IsPermutation rows.now sorted.items) }
{
    let mut keys = sort_keys(alloc, rows)?;
    keys.sort_by(|a, b| a.compare(b))?;
    let sorted = share_keyed(alloc, &keys)?;
    Ok(sorted)
}

/// The rows' keys, in their order.
fn sort_keys<'a>(alloc: Global, rows: &'a [Row]) -> Result<Vec<SortKey<'a>>, NoMemory>
    ensures { IfOk result (λ keys. map (λ key. key.row.now) keys.items ≡ rows.now) }
{
    let mut keys = Vec::with_capacity(alloc, rows.len())?;
    for row in rows {
        keys.push(SortKey {
            prefix: row.prefix,
            row,
        })?;
    }
    Ok(keys)
}

/// The keys' rows, shared.
fn share_keyed(alloc: Global, keys: &[SortKey<'_>]) -> Result<Vec<Row>, NoMemory>
    ensures { IfOk result (λ rows. rows.items ≡ map (λ key. key.row.now) keys.now) }
{
    let mut rows = Vec::with_capacity(alloc, keys.len())?;
    for key in keys {
        push_shared(&mut rows, key.row)?;
    }
    Ok(rows)
}
