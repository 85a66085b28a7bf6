//! A numbered cell that several segments share.

ghost use Rattle.std.specs.Prelude.{◌≡◌, ◌<◌, length, IfOk};
ghost use Rattle.std.specs.Arc.{arc_value};
ghost use Rattle.std.specs.Ordering.{is_le};
ghost use Rattle.cell_model.specs.Cell.{IsCell};
ghost use Rattle.cell_model.specs.Order.{numbered_cmp};
ghost use Rattle.mem_segments.specs.Prefix.{IsPrefix};
ghost use Rattle.mem_segments.specs.Shared.{cell_at};
ghost use Rattle.mem_segments.specs.Walk.{is_before};

use crate::shared_cell::SharedCell;
use kv_cell::{Batch, Cell, NoMemory, compare_numbered};
use std::alloc::Global;
use std::cmp::Ordering;
use std::marker::Model;
use std::sync::Arc;

/// A cell with the number of its edit. Contracts see the pair, number first.
// The word tells most rows apart without a look at a cell.
#[derive(Debug)]
pub struct Row {
    number: u64,
    pub(crate) prefix: u64,
    pub(crate) shared: SharedCell,
}

// By hand, so that no function that drops rows proves it anew.
impl Drop for Row {
    fn drop(self) {
        let Row {
            number: _,
            prefix: _,
            shared: _,
        } = self;
    }
}

impl Model for Row {
    ghost use Rattle.cell_model.specs.Order.{NumberedCell};
    ghost use Rattle.mem_segments.specs.Prefix.{IsPrefix};

    ghost Value = { NumberedCell };

    ghost view = { λ r. (r.number, r.shared) };

    ghost invariant = { λ r. IsPrefix r.prefix r.shared.row };
}

impl Row {
    /// A row of its own.
    pub fn new(alloc: Global, number: u64, cell: Cell) -> Result<Row, NoMemory>
        ensures row { IfOk result (λ row. row ≡ (number, cell)) }
        ensures within { IsCell cell }
    {
        let prefix = prefix_of(cell.row.as_slice());
        Ok(Row {
            number,
            prefix,
            shared: SharedCell::of(alloc, cell)?,
        })
    }

    /// A row without its number, which is 0 till then, of the batch's cell at this place. No byte is copied: it shares the
    /// batch. A count of sharers that is full is told as out of memory.
    pub(crate) fn of_batch(batch: &Arc<Batch, Global>, place: u16) -> Result<Row, NoMemory>
        requires place { place < length (arc_value batch.now).cells }
        ensures { IfOk result (λ row. row ≡ (0, cell_at (arc_value batch.now).cells place)) }
    {
        let shared = SharedCell::of_batch(batch, place)?;
        let prefix = prefix_of(shared.cell().row.as_slice());
        Ok(Row {
            number: 0,
            prefix,
            shared,
        })
    }

    /// The same cell, shared: no byte is copied. A count of sharers that is full is told as out of memory.
    pub fn share(&self) -> Result<Row, NoMemory>
        ensures { IfOk result (λ row. row ≡ self.now) }
    {
        Ok(Row {
            number: self.number,
            prefix: self.prefix,
            shared: self.shared.share()?,
        })
    }

    /// Writes another number over the row's.
    pub(crate) fn set_number(&mut self, number: u64)
        ensures { self.new ≡ (number, self.old.1) }
    {
        self.number = number;
    }

    /// The number of the cell's edit.
    pub fn number(&self) -> u64
        ensures { result ≡ self.now.0 }
    {
        self.number
    }

    /// The cell, lent.
    pub fn cell(&self) -> &Cell
        ensures { result.now ≡ self.now.1 }
    {
        self.shared.cell()
    }

    /// How many share the cell, this row too. A cell of a batch is shared with all that keep the batch.
    pub fn sharers(&self) -> usize {
        self.shared.sharers()
    }

    /// The order of numbered cells: row, family and qualifier rise, and timestamp, type and number fall.
    pub fn compare(&self, other: &Row) -> Ordering
        ensures { result ≡ numbered_cmp self.now other.now }
    {
        match self.prefix.cmp(&other.prefix) {
            Ordering::Equal => compare_numbered(
                self.cell(),
                self.number(),
                other.cell(),
                other.number(),
            ),
            decided => decided,
        }
    }

    /// Whether it comes before the other one, or ties with it.
    pub(crate) fn is_at_most(&self, other: &Row) -> bool
        ensures { result ≡ is_le (numbered_cmp self.now other.now) }
    {
        self.compare(other).is_le()
    }

    /// Whether the cell's row lies below these bytes.
    pub(crate) fn is_before(&self, bound: &[u8]) -> bool
        ensures { result ≡ is_before bound.now self.now }
    {
        self.cell().row.as_slice().cmp(bound).is_lt()
    }
}

/// The first eight bytes as a number, with zeros after the last where there are fewer.
fn prefix_of(row: &[u8]) -> u64
    ensures { IsPrefix result row.now }
{
    let mut word: u64 = 0;
    for place in 0..8usize {
        let byte = row.get(place).copied().unwrap_or(0);
        word = word * 256 + u64::from(byte);
    }
    word
}
