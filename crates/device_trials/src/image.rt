//! What a crash leaves of a device's disk: it is opened, and its regions have the first of the edits.

use crate::entries::value_of;
use crate::files::{crash_at, hold};
use crate::opened::{Kept, have_edits, opened};
use disk_fakes::MemDisk;
use kv_cell::Cell;
use region_replay::Replayed;
use std::alloc::Global;
use std::test::Fail as TestFail;

/// What stood after a call: the clock, and how many of the edits were staged and synced.
#[derive(Clone, Copy)]
pub(crate) struct Mark {
    pub(crate) clock: u64,
    pub(crate) staged: u64,
    pub(crate) synced: u64,
}

/// The last numbers of regions 1 and 2 where so many of the edits are there.
const LASTS: [[u64; 2]; 6] = [[0, 0], [1, 0], [2, 0], [2, 1], [3, 1], [3, 2]];

/// Whether this is the put of the region's edit with this number.
fn is_put(region: u32, number: u64, cell: &Cell) -> bool {
    cell.row.as_slice() == b"r".as_slice()
        && cell.family.as_slice() == b"f".as_slice()
        && cell.qualifier.as_slice() == b"q".as_slice()
        && cell.ts == number
        && cell.kind.code() == 4
        && cell.value.as_slice() == value_of(region)
}

/// Whether each region's cells are the puts of its edits.
fn are_puts(replayed: &[Replayed]) -> bool {
    for (region, found) in (1..65).zip(replayed) {
        let rows = found.base.cells.rows();
        if !rows
            .iter()
            .all(|row| is_put(region, row.number(), row.cell()))
        {
            return false;
        }
    }
    true
}

fn kept(edits: u64) -> Kept {
    Kept {
        edits,
        next_store: 1,
    }
}

/// Whether the regions have the first edits, so many at least and at most, and nothing else.
fn have_first(replayed: &[Replayed], fewest: u64, most: u64) -> bool {
    for (count, [first, second]) in (0..6).zip(&LASTS) {
        if have_edits(replayed, &[kept(*first), kept(*second)]) {
            return fewest <= count && count <= most && are_puts(replayed);
        }
    }
    false
}

/// How many edits have to be there after a crash at this moment, as they were synced by then, and how many may be, as they were
/// staged before the call that came to it.
fn bounds_at(marks: &[Mark], moment: u64) -> (u64, u64) {
    let (mut fewest, mut most) = (0, 0);
    for mark in marks {
        if mark.clock <= moment {
            fewest = mark.synced;
        }
        if mark.clock < moment {
            most = mark.staged;
        }
    }
    (fewest, most)
}

/// A crash at this moment is to leave the first edits, so many at least and at most.
fn leaves(alloc: Global, disk: &MemDisk, moment: u64, bounds: (u64, u64)) -> Result<(), TestFail> {
    for choice in 0..4 {
        let image = crash_at(alloc, disk, moment, choice)?;
        let recovered = opened(alloc, image)?;
        let have = have_first(recovered.as_slice(), bounds.0, bounds.1);
        hold(have, "other edits are there than the first ones")?;
    }
    Ok(())
}

/// A crash at this moment or at a later one is to leave the first edits, with all that was synced by then.
pub(crate) fn are_images(
    alloc: Global,
    disk: &MemDisk,
    marks: &[Mark],
    first: u64,
) -> Result<(), TestFail> {
    for moment in first..disk.clock().saturating_add(1) {
        leaves(alloc, disk, moment, bounds_at(marks, moment))?;
    }
    Ok(())
}
