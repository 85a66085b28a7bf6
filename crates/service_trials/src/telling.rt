//! What was answered, as text: each answer with a space after it. None is out of memory.

ghost use Rattle.std.specs.Prelude.{◌≤◌};

use kv_cell::{Cell, NoMemory};
use mem_segments::Row;
use region_calls::{ClosedRegion, Scanner};
use std::alloc::Global;

/// Tells a number of one digit. Each greater one is told as a question mark.
fn tell_digit(told: &mut Vec<u8>, number: u64) -> Option<()> {
    let digit = if number < 10 {
        b'0' + number as u8
    } else {
        b'?'
    };
    told.push(digit).ok()
}

/// Tells a sequence id, a point or a count.
pub(crate) fn tell_number(told: &mut Vec<u8>, number: u64) -> Option<()> {
    tell_digit(told, number)?;
    told.push(b' ').ok()
}

/// Tells a cell by its sequence id and its row.
fn tell_cell(told: &mut Vec<u8>, number: u64, cell: &Cell) -> Option<()> {
    tell_digit(told, number)?;
    told.extend_from_slice(cell.row.as_slice()).ok()
}

/// Tells the cells of a page.
fn tell_cells(told: &mut Vec<u8>, cells: &[(u64, Cell)]) -> Option<()> {
    for (number, cell) in cells {
        tell_cell(told, *number, cell)?;
    }
    Some(())
}

/// Tells the next `count` cells of a scan, and a dot after them where none is left, else a bar.
pub(crate) fn tell_page(
    alloc: Global,
    told: &mut Vec<u8>,
    scanner: &mut Scanner,
    count: u32,
) -> Option<()>
    requires { 1 ≤ count }
{
    let page = scanner.next(alloc, count).ok()?;
    tell_cells(told, page.cells.as_slice())?;
    told.extend_from_slice(if page.done { b". " } else { b"| " })
        .ok()
}

/// Tells a scan in pages of two cells, up to one after the last of three.
pub(crate) fn tell_pages(
    alloc: Global,
    told: &mut Vec<u8>,
    begun: Result<Scanner, NoMemory>,
) -> Option<()> {
    let mut scanner = begun.ok()?;
    for _ in 0..3 {
        tell_page(alloc, told, &mut scanner, 2)?;
    }
    Some(())
}

/// Tells the cells of a scan that was answered at once.
pub(crate) fn tell_rows(told: &mut Vec<u8>, rows: &[Row]) -> Option<()> {
    for row in rows {
        tell_cell(told, row.number(), row.cell())?;
    }
    told.push(b' ').ok()
}

/// Tells what a closed server left of its first region: how many edits it has, and up to which sequence id they are durable; and a dot,
/// or an exclamation mark where the log was ended by a fault.
pub(crate) fn tell_closed(
    told: &mut Vec<u8>,
    regions: &[ClosedRegion],
    broken: bool,
) -> Option<()> {
    let region = regions.first()?;
    tell_number(told, region.lines.len() as u64)?;
    tell_number(told, region.synced)?;
    told.push(if broken { b'!' } else { b'.' }).ok()
}
