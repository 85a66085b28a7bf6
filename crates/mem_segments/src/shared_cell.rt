//! A cell that several rows share.

ghost use Rattle.std.specs.Prelude.{◌≡◌, ◌<◌, length, IfOk};
ghost use Rattle.std.specs.Arc.{arc_value};
ghost use Rattle.mem_segments.specs.Shared.{cell_at};

use kv_cell::{Batch, Cell, NoMemory};
use std::alloc::Global;
use std::marker::Model;
use std::sync::Arc;

/// What the sharers keep.
#[derive(Debug, Drop)]
pub(crate) enum Block {
    /// The cell.
    Own(Arc<Cell, Global>),
    /// The cell's place in a batch, and the batch. A number that came after would make the value a word longer.
    OfBatch(u16, Arc<Batch, Global>),
}

/// A cell of its own, or one of a batch, whose block it keeps. Contracts see the cell.
#[derive(Debug)]
pub(crate) struct SharedCell {
    pub(crate) block: Block,
}

/// By hand, as that of kv_cell's `Octets`: the crates above call it.
impl Drop for SharedCell {
    fn drop(self) {
        let SharedCell { block: _ } = self;
    }
}

impl Model for SharedCell {
    ghost use Rattle.cell_model.specs.Cell.{Cell as TheCell};
    ghost use Rattle.mem_segments.specs.Shared.{cell_in, IsIn};

    ghost Value = { TheCell };

    ghost view = { λ s. cell_in s.block };

    ghost invariant = { λ s. IsIn s.block };
}

impl SharedCell {
    /// This cell, in a block of its own.
    pub(crate) fn of(alloc: Global, cell: Cell) -> Result<SharedCell, NoMemory>
        ensures { IfOk result (λ shared. shared ≡ cell) }
    {
        Ok(SharedCell {
            block: Block::Own(Arc::new(alloc, cell)?),
        })
    }

    /// The batch's cell at this place, below their number. No byte is copied; a count of sharers that is full is told as out
    /// of memory.
    pub(crate) fn of_batch(batch: &Arc<Batch, Global>, place: u16) -> Result<SharedCell, NoMemory>
        requires place { place < length (arc_value batch.now).cells }
        ensures { IfOk result (λ shared. shared ≡ cell_at (arc_value batch.now).cells place) }
    {
        Ok(SharedCell {
            block: Block::OfBatch(place, Arc::try_clone(batch)?),
        })
    }

    /// The same cell: no byte is copied. A count of sharers that is full is told as out of memory.
    pub(crate) fn share(&self) -> Result<SharedCell, NoMemory>
        ensures { IfOk result (λ shared. shared ≡ self.now) }
    {
        let block = match &self.block {
            Block::Own(cell) => Block::Own(Arc::try_clone(cell)?),
            Block::OfBatch(place, batch) => Block::OfBatch(*place, Arc::try_clone(batch)?),
        };
        Ok(SharedCell { block })
    }

    /// The cell, lent.
    pub(crate) fn cell(&self) -> &Cell
        ensures { result.now ≡ self.now }
    {
        match &self.block {
            Block::Own(cell) => cell,
            Block::OfBatch(place, batch) => &batch.as_slice()[usize::from(*place)],
        }
    }
    /// How many share what the cell is kept in.
    pub(crate) fn sharers(&self) -> usize {
        match &self.block {
            Block::Own(cell) => Arc::strong_count(cell),
            Block::OfBatch(_, batch) => Arc::strong_count(batch),
        }
    }
}
