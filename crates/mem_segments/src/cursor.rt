//! Where a walk was laid down.

ghost use Rattle.std.specs.Prelude.{◌≡◌, None, option_map};

use crate::row::Row;
use std::marker::Model;

/// The place of a walk that was laid down: after the cell that it gave last, which it shares, or in front of the first
/// one. It borrows nothing. Contracts see the cell that was given last.
#[derive(Drop)]
pub struct Cursor {
    last: Option<Row>,
}

impl Model for Cursor {
    ghost use Rattle.std.specs.Prelude.{Option};
    ghost use Rattle.cell_model.specs.Order.{NumberedCell};

    ghost Value = { Option NumberedCell };

    ghost view = { λ c. c.last };
}

impl Cursor {
    /// In front of the first cell. It takes no memory.
    pub fn new() -> Cursor
        ensures { result ≡ None }
    {
        Cursor { last: None }
    }

    /// After this row, or where there is none in front of the first cell.
    pub(crate) fn past(last: Option<Row>) -> Cursor
        ensures { result ≡ last }
    {
        Cursor { last }
    }

    /// The row that was given last.
    pub(crate) fn last(&self) -> Option<&Row>
        ensures { option_map (λ row. row.now) result ≡ self.now }
    {
        self.last.as_ref()
    }
}
