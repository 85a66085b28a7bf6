//! A walk over the segments of a list, a page at a time.

ghost use Rattle.std.specs.Prelude.{◌≡◌, ◌↔◌, [], ◌∷◌, ◌++◌, IsTrue, take, drop, filter, option_map, IfOk, OnOk, OnErr};
ghost use Rattle.cell_model.specs.Join.{joined};
ghost use Rattle.cell_model.specs.Order.{cells_of};
ghost use Rattle.region_model.specs.Journal.{is_in_range};
ghost use Rattle.mem_segments.specs.Walk.{last_given, to_come, IsPage};

use crate::cursor::Cursor;
use crate::layers::SegmentList;
use crate::merge_iter::MergeIter;
use crate::row::Row;
use kv_cell::{NoMemory, NumberedCells};
use std::alloc::Global;

/// Cells that follow one another in a walk, with bytes of their own, and whether none is left behind them.
#[derive(Debug, Drop)]
pub struct Page {
    pub cells: NumberedCells,
    pub done: bool,
}

impl SegmentList {
    /// The next `count` cells, or all that are left where there are fewer, of the walk over the rows at or above `from`
    /// and, if `to` isn't empty, below `to`. The cursor moves after them; out of memory it stays.
    pub fn page(
        &self,
        alloc: Global,
        cursor: &mut Cursor,
        from: &[u8],
        to: &[u8],
        count: u32,
    ) -> Result<Page, NoMemory>
        ensures ok { let cells = filter (is_in_range from.now to.now) (cells_of (joined self.now)) in
            IfOk result (λ page. IsPage count page.cells page.done (to_come cursor.old cells) (to_come cursor.new cells)) }
        ensures err { OnErr result (cursor.new ≡ cursor.old) }
    {
        let mut walk = MergeIter::resume(alloc, self.as_slice(), cursor, from, to)?;
        let (page, last) = next_page(alloc, &mut walk, cursor.last(), count)?;
        drop(walk);
        *cursor = Cursor::past(last);
        Ok(page)
    }
}

/// The next `count` cells of a walk, or all that are left, and whether none is left behind them. With them comes the row
/// that was given last, shared.
fn next_page<'a>(
    alloc: Global,
    walk: &mut MergeIter<'a>,
    before: Option<&'a Row>,
    count: u32,
) -> Result<(Page, Option<Row>), NoMemory>
    ensures cells { IfOk result (λ given. given.0.cells ≡ take count walk.old) }
    ensures done { IfOk result (λ given. IsTrue given.0.done ↔ (walk.new ≡ [])) }
    ensures rest { OnOk result (walk.new ≡ drop count walk.old) }
    ensures last { IfOk result (λ given. given.1 ≡ last_given (option_map (λ row. row.now) before.entry) (take count walk.old)) }
{
    let mut cells = NumberedCells::new(alloc);
    let last = take_cells(alloc, &mut cells, walk, before, count)?;
    let last = share_row(last)?;
    let done = walk.is_done();
    Ok((Page { cells, done }, last))
}

/// Appends the next `count` cells of a walk, or all that are left, with bytes of their own. It gives the row that was
/// given last.
fn take_cells<'a>(
    alloc: Global,
    cells: &mut NumberedCells,
    walk: &mut MergeIter<'a>,
    before: Option<&'a Row>,
    count: u32,
) -> Result<Option<&'a Row>, NoMemory>
    ensures cells { OnOk result (cells.new ≡ cells.old ++ take count walk.old) }
    ensures rest { OnOk result (walk.new ≡ drop count walk.old) }
    ensures last { IfOk result (λ last. option_map (λ row. row.now) last ≡ last_given (option_map (λ row. row.now) before.entry) (take count walk.old)) }
{
    let mut last = before;
    for i in 0..count {
        let Some(row) = walk.next_row() else {
            return Ok(last);
        };
        push_copy(alloc, cells, row)?;
        last = Some(row);
    }
    Ok(last)
}

/// Appends the row's cell, with bytes of its own.
fn push_copy(alloc: Global, cells: &mut NumberedCells, row: &Row) -> Result<(), NoMemory>
    ensures { OnOk result (cells.new ≡ cells.old ++ row.now ∷ []) }
{
    cells.push(row.number(), row.cell().copy(alloc)?)?;
    Ok(())
}

/// The same row, shared.
fn share_row(row: Option<&Row>) -> Result<Option<Row>, NoMemory>
    ensures { IfOk result (λ shared. shared ≡ option_map (λ r. r.now) row.entry) }
{
    match row {
        None => Ok(None),
        Some(row) => Ok(Some(row.share()?)),
    }
}
