//! Numbered cells strictly in order.

ghost use Rattle.std.specs.Prelude.{◌≡◌, ◌↔◌, IfOk, OnOk, IsTrue};
ghost use Rattle.std.specs.List.{AllByRecursion};
ghost use Rattle.std.specs.FinMap.{empty, len};
ghost use Rattle.cell_model.specs.Cell.{IsCell};
ghost use Rattle.cell_model.specs.Order.{cells_of, put_cells};
ghost use Rattle.cell_model.specs.Merge.{put_numbered};

use crate::draft::{Draft, renumber};
use crate::ordering::{numbered_rows, ordered_rows};
use crate::row::Row;
use kv_cell::{NoMemory, NumberedCells};
use std::alloc::Global;
use std::marker::Model;
use std::sync::Arc;

/// Numbered cells strictly in the order of versions. Contracts see their content: the finite map from versions to
/// values, which loses nothing of the list.
pub struct Segment {
    pub(crate) rows: Vec<Row>,
}

impl Drop for Segment {
    fn drop(self) {
        let Segment { rows: _ } = self;
    }
}

impl Model for Segment {
    ghost use Rattle.cell_model.specs.Order.{Content};
    ghost use Rattle.cell_model.specs.Merge.{content_of, IsRising};
    ghost use Rattle.cell_model.specs.Codes.{coded_content};

    ghost Value = { Content };

    ghost coded = { coded_content };

    ghost view = { λ s. content_of s.rows.items };

    ghost invariant = { λ s. IsRising s.rows.items };
}

/// What a region is opened with: its cells, and its last number. Contracts see a content and the number.
pub struct Base {
    /// The cells.
    pub cells: Arc<Segment, Global>,
    /// The greatest number of an edit that was seen, 0 where there was none.
    pub last: u64,
}

/// By hand, as that of kv_cell's `Octets`: the crates above call it.
impl Drop for Base {
    fn drop(self) {
        let Base { cells: _, last: _ } = self;
    }
}

impl Model for Base {
    ghost use Rattle.std.specs.Arc.{arc_value};
    ghost use Rattle.region_model.specs.Journal.{Base as TheBase};
    ghost use Rattle.mem_segments.specs.Codes.{coded_base};

    ghost Value = { TheBase };

    ghost coded = { coded_base };

    ghost view = { λ b. record { content = arc_value b.cells; last = b.last } };
}

impl Segment {
    /// No cell. It takes no memory.
    pub fn new(alloc: Global) -> Segment
        ensures { result ≡ empty }
    {
        Segment {
            rows: Vec::new(alloc),
        }
    }

    /// The cells in order. Of two with one key and number the later one of the list stays. It takes a time of
    /// n log n.
    pub fn of_cells(alloc: Global, cells: NumberedCells) -> Result<Segment, NoMemory>
        ensures content { IfOk result (λ segment. segment ≡ put_numbered empty cells) }
        ensures within { OnOk result (AllByRecursion (λ x. IsCell x.1) cells) }
    {
        let rows = numbered_rows(alloc, cells)?;
        let rows = ordered_rows(alloc, rows)?;
        Ok(Segment { rows })
    }

    /// The cells of a draft as those of the edit of this number. It takes no memory.
    pub fn of_draft(draft: Draft, number: u64) -> Segment
        ensures { result ≡ put_cells empty number draft }
    {
        let mut rows = draft.rows;
        renumber(&mut rows, number);
        Segment { rows }
    }

    /// The number of cells.
    pub fn len(&self) -> usize
        ensures { result ≡ len self.now }
    {
        self.rows.as_slice().len()
    }

    /// Whether there is no cell.
    pub fn is_empty(&self) -> bool
        ensures { IsTrue result ↔ (len self.now ≡ 0) }
    {
        self.len() == 0
    }

    /// The cells in order, lent.
    pub fn rows(&self) -> &[Row]
        ensures { result.now ≡ cells_of self.now }
    {
        self.rows.as_slice()
    }
}
