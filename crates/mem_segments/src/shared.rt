//! A list of rows that others share.

ghost use Rattle.std.specs.Prelude.{◌≡◌, ◌↔◌, [], ◌∷◌, ◌++◌, length, IsTrue, OnOk, OnErr};

use crate::row::Row;
use kv_cell::NoMemory;
use std::alloc::Global;
use std::marker::Model;

/// Cells, each with the number of its edit, in any order. A cell is shared with whoever else has it: a place of the
/// list takes 32 bytes, whatever the cell's length. Contracts see the list of pairs.
#[derive(Debug, Drop)]
pub struct SharedCells {
    rows: Vec<Row>,
}

impl Model for SharedCells {
    ghost use Rattle.std.specs.Prelude.{List};
    ghost use Rattle.cell_model.specs.Order.{NumberedCell};

    ghost Value = { List NumberedCell };

    ghost view = { λ s. s.rows.items };
}

impl SharedCells {
    /// No cell. It takes no memory.
    pub fn new(alloc: Global) -> SharedCells
        ensures { result ≡ [] }
    {
        SharedCells {
            rows: Vec::new(alloc),
        }
    }

    /// The vector's rows. It takes no memory.
    pub fn of(rows: Vec<Row>) -> SharedCells
        ensures { result ≡ rows.items }
    {
        SharedCells { rows }
    }

    /// Adds a row at the end. Out of memory the row is dropped, and the list stays.
    pub fn push(&mut self, row: Row) -> Result<(), NoMemory>
        ensures ok { OnOk result (self.new ≡ self.old ++ row ∷ []) }
        ensures err { OnErr result (self.new ≡ self.old) }
    {
        self.rows.push(row)?;
        Ok(())
    }

    /// Gives back room that no row takes, for a list that is kept. Where there is no memory for the move the room stays.
    pub fn fit(&mut self)
        ensures { self.new ≡ self.old }
    {
        self.rows.shrink_to_fit();
    }

    /// The number of cells.
    pub fn len(&self) -> usize
        ensures { result ≡ length self.now }
    {
        self.rows.as_slice().len()
    }

    /// Whether there is no cell.
    pub fn is_empty(&self) -> bool
        ensures { IsTrue result ↔ (self.now ≡ []) }
    {
        self.rows.is_empty()
    }

    /// The rows, lent.
    pub fn as_slice(&self) -> &[Row]
        ensures { result.now ≡ self.now }
    {
        self.rows.as_slice()
    }
}
