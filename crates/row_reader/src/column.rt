//! What was met of one column.

ghost use Rattle.std.specs.Prelude.{◌≡◌, ◌<◌, ◌-◌, nat_lt, length};
ghost use Rattle.cell_model.specs.Merge.{IsRising};
ghost use Rattle.row_reader.specs.Column.{fresh, holds, gives, passed, IsReadyAt, IsPassedUpTo};

use crate::family::is_column;
use kv_cell::{Cell, Kind};
use mem_segments::Row;
use std::marker::Model;

/// What was met of a column, from its newest cell on.
#[derive(Drop)]
pub(crate) struct Column {
    /// Whether a delete column was met.
    deleted: bool,
    /// The timestamp of the last put or delete.
    held: Option<u64>,
    /// How many more versions are wanted.
    left: u64,
}

impl Model for Column {
    ghost use Rattle.row_reader.specs.Column.{Met};

    ghost Value = { Met };

    ghost view = { λ c. record { deleted = c.deleted; held = c.held; left = c.left } };
}

impl Column {
    /// A column of which nothing was met, and so many versions are wanted.
    pub(crate) fn new(versions: u64) -> Column
        ensures { result ≡ fresh versions }
    {
        Column {
            deleted: false,
            held: None,
            left: versions,
        }
    }

    /// Goes past the next cell of the column. Whether a reader is given it, where a delete of its family covers it or not.
    pub(crate) fn pass(&mut self, cell: &Cell, covered: bool) -> bool
        ensures given { result ≡ gives self.old covered cell.now }
        ensures passed { self.new ≡ passed self.old covered cell.now }
    {
        match cell.kind {
            Kind::Put => {
                let shown = !covered && !self.deleted && !self.is_held(cell.ts);
                self.held = Some(cell.ts);
                shown && self.count()
            }
            Kind::Delete => {
                self.held = Some(cell.ts);
                false
            }
            Kind::DeleteColumn => {
                self.deleted = true;
                false
            }
            Kind::DeleteFamily | Kind::DeleteFamilyVersion => false,
        }
    }

    /// Whether the last put or delete has this timestamp.
    fn is_held(&self, ts: u64) -> bool
        ensures { result ≡ holds self.now.held ts }
    {
        match self.held {
            Some(held) => held == ts,
            None => false,
        }
    }

    /// Counts one more version. Whether it is wanted.
    fn count(&mut self) -> bool
        ensures wanted { result ≡ nat_lt 0 self.old.left }
        ensures counted { self.new ≡ record self.old { left = self.old.left - 1 } }
    {
        if self.left == 0 {
            return false;
        }
        self.left -= 1;
        true
    }
}

/// What was met of the column of the cell at this place before it, where `column` was met up to the cell before.
pub(crate) fn column_at(cells: &[Row], place: usize, column: Column, versions: u64) -> Column
    requires order { IsRising cells.now }
    requires within { place < length cells.now }
    requires before { IsPassedUpTo versions cells.now place column }
    ensures { IsReadyAt versions cells.now place result }
{
    if place == 0 {
        return Column::new(versions);
    }
    if is_column(cells[place - 1].cell(), cells[place].cell()) {
        return column;
    }
    Column::new(versions)
}
