//! Who shares a segment, and who shares a cell.

use kv_cell::{Cell, NumberedCells};
use mem_segments::{MergeIter, Row, Segment, SegmentList, SharedCells};
use std::alloc::Global;
use std::slice;
use std::sync::Arc;
use std::test::*;

/// Adds puts of these rows, column `f:q`, at 1, by number.
fn add_puts(alloc: Global, cells: &mut NumberedCells, rows: &[(u64, u8)]) -> Result<(), Fail> {
    for (number, row) in rows {
        cells.push(*number, Cell::new(alloc, &[*row], b"f", b"q", 1, 4, b"v")?)?;
    }
    Ok(())
}

/// One segment of these rows, by number.
fn segment(alloc: Global, rows: &[(u64, u8)]) -> Result<Arc<Segment, Global>, Fail> {
    let mut cells = NumberedCells::new(alloc);
    add_puts(alloc, &mut cells, rows)?;
    Ok(Arc::new(alloc, Segment::of_cells(alloc, cells)?)?)
}

/// The list with a newer segment of these rows. It is let stand for good: that it is dropped is not what a test shows.
fn with_newer(
    alloc: Global,
    list: &SegmentList,
    rows: &[(u64, u8)],
) -> Result<&'static SegmentList, Fail> {
    let newer = segment(alloc, rows)?;
    if newer.is_empty() {
        return Err("cells in each")?;
    }
    let longer = list.with_newer(alloc, newer)?;
    Ok(Box::leak(Box::new(alloc, longer)?))
}

/// A list of one segment of four rows.
fn first_list(alloc: Global) -> Result<&'static SegmentList, Fail> {
    let rows = [(3, b'c'), (1, b'a'), (2, b'b'), (4, b'd')];
    with_newer(alloc, &SegmentList::new(alloc), &rows)
}

/// How many rows of this list stand in segments of its own, while the list before it still holds its own too: what
/// both have is counted twice.
fn rows_made(list: &SegmentList) -> usize {
    let mut made = 0usize;
    for part in list.as_slice() {
        if Arc::strong_count(part) == 1 {
            made = made.saturating_add(part.len());
        }
    }
    made
}

/// The same of a list that shares all of this one.
fn rows_made_by_sharing(alloc: Global, list: &SegmentList) -> Result<usize, Fail> {
    let shared = list.share(alloc)?;
    Ok(rows_made(&shared))
}

/// Whether each row's cell is shared by two.
fn are_shared_by_two(rows: &[Row]) -> bool {
    rows.iter().all(|row| row.sharers() == 2)
}

/// Whether the cells of each segment but the first are shared by two.
fn are_later_shared(list: &SegmentList) -> bool {
    list.as_slice()
        .iter()
        .skip(1)
        .all(|part| are_shared_by_two(part.rows()))
}

#[test]
fn what_is_not_merged_is_shared(rt: HostRuntime) -> Result<(), Fail> {
    let alloc = rt.alloc();
    let first = first_list(alloc)?;
    let in_first = rows_made(first);
    let second = with_newer(alloc, first, &[(5, b'e')])?;
    let in_second = rows_made(second);
    let third = with_newer(alloc, second, &[(6, b'f')])?;
    let in_third = rows_made(third);
    let by_sharing = rows_made_by_sharing(alloc, third)?;
    assert!(rt; in_first == 4 && in_second == 1 && in_third == 2 && by_sharing == 0);
    assert!(rt; are_later_shared(second));
    Ok(())
}

/// Whether the next row of a walk is there, and is added.
fn adds_next(walk: &mut MergeIter<'_>, cells: &mut SharedCells) -> bool {
    match walk.next_row() {
        Some(row) => match row.share() {
            Ok(shared) => cells.push(shared).is_ok(),
            Err(_) => false,
        },
        None => false,
    }
}

/// Whether three rows of a walk over these segments are added.
fn adds_walk(alloc: Global, parts: &[Arc<Segment, Global>], cells: &mut SharedCells) -> bool {
    let Ok(mut walk) = MergeIter::new(alloc, parts, b"", b"") else {
        return false;
    };
    let mut all = true;
    for _ in 0..3 {
        all = all && adds_next(&mut walk, cells);
    }
    all
}

/// Whether the list that a walk over one segment makes shares each of its three cells.
fn shares_cells(alloc: Global) -> Result<bool, Fail> {
    let part = segment(alloc, &[(3, b'c'), (1, b'a'), (2, b'b')])?;
    let mut cells = SharedCells::new(alloc);
    let is_walked = adds_walk(alloc, slice::from_ref(&part), &mut cells);
    cells.fit();
    Ok(is_walked && cells.len() == 3 && are_shared_by_two(part.rows()))
}

#[test]
fn list_of_a_walks_rows_shares_the_segments_cells(rt: HostRuntime) -> Result<(), Fail> {
    assert!(rt; shares_cells(rt.alloc())?);
    Ok(())
}
