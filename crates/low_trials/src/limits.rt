//! Cells and batches at their limits.

use kv_cell::{Batch, BatchError, Cell, CellError};
use std::alloc::Global;
use std::test::*;

/// A cell of this row and this code of its type.
fn cell_of(alloc: Global, row: &[u8], code: u8) -> Result<Cell, CellError> {
    Cell::new(alloc, row, b"f", b"q", 1, code, b"v")
}

/// Whether the put of row `r` that is given these tags has them, or why it is refused.
fn has_tags(alloc: Global, tags: &[u8]) -> Result<bool, CellError> {
    let cell = cell_of(alloc, b"r", 4)?.with_tags(alloc, tags)?;
    Ok(cell.tags.as_slice() == tags)
}

/// The same of so many bytes.
fn has_bytes(alloc: Global, len: usize) -> Result<Result<bool, CellError>, Fail> {
    let tags = vec![in alloc; 7; len]?;
    Ok(has_tags(alloc, &tags))
}

#[test]
fn tags_of_4096_bytes_are_taken(rt: HostRuntime) -> Result<(), Fail> {
    assert!(rt; has_bytes(rt.alloc(), 2)? == Ok(true));
    assert!(rt; has_bytes(rt.alloc(), 4_096)? == Ok(true));
    assert!(rt; has_bytes(rt.alloc(), 4_097)? == Err(CellError::TagsLength));
    Ok(())
}

/// Why a cell is refused; None where it is made.
fn refusal_of(alloc: Global, row: &[u8], code: u8) -> Option<CellError> {
    match cell_of(alloc, row, code) {
        Ok(_) => None,
        Err(refusal) => Some(refusal),
    }
}

/// Why a batch of no cells is refused; None where it is made.
fn refusal_of_none(alloc: Global) -> Option<BatchError> {
    match Batch::new(Vec::new(alloc)) {
        Ok(_) => None,
        Err(refusal) => Some(refusal),
    }
}

#[test]
fn no_row_no_such_type_and_no_cells_are_refused(rt: HostRuntime) {
    let alloc = rt.alloc();
    assert!(rt; refusal_of(alloc, b"r", 4).is_none());
    assert!(rt; refusal_of(alloc, b"", 4) == Some(CellError::RowLength));
    assert!(rt; refusal_of(alloc, b"r", 255) == Some(CellError::Kind));
    assert!(rt; refusal_of(alloc, b"", 255) == Some(CellError::RowLength));
    assert!(rt; refusal_of_none(alloc) == Some(BatchError::Count));
}
