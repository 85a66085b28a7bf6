//! Edits of one region that are shown by its versions.

ghost use Rattle.std.specs.Prelude.{◌≡◌, [], ◌+◌, ◌<◌, ◌≤◌, ◌^◌, IfOk, OnOk};
ghost use Rattle.region_state.specs.States.{write_point};
ghost use Rattle.region_state.specs.Calls.{AreBelow};

use kv_cell::{Batch, Cell};
use mem_segments::{Base, Draft, MergeIter, Segment};
use region_state::{Caller, Ended, RegionState, Version};
use std::alloc::Global;
use std::sync::Arc;
use std::test::Fail;

/// A region with no cell, and room in its journal for numbers from 1 on. It is never dropped, nor are its versions: no trial shows
/// how.
fn empty_region(alloc: Global) -> Result<&'static mut RegionState, Fail>
    ensures { IfOk result (λ s. (s.now.lines ≡ []) × (s.now.base.last ≡ 0)) }
{
    let base = Base {
        cells: Arc::new(alloc, Segment::new(alloc))?,
        last: 0,
    };
    Ok(Box::leak(Box::new(alloc, RegionState::new(alloc, 1, base)?)?))
}

/// One cell of a row with this byte string.
pub(crate) fn batch_of(alloc: Global, row: &[u8]) -> Result<Batch, Fail> {
    let cell = Cell::new(alloc, row, b"f", b"q", 1, 4, b"v")?;
    let mut cells = Vec::new(alloc);
    cells.push(cell)?;
    Ok(Batch::new(cells)?)
}

/// Puts one row, with the call's number as that of the edit, and ends the edit so. The read point then.
fn put(
    alloc: Global,
    state: &mut RegionState,
    call: u32,
    row: &[u8],
    ended: Ended,
) -> Result<u64, Fail>
    requires below { AreBelow call state.old.lines }
    requires number { write_point state.old + 1 < 2 ^ 48 }
    ensures below { OnOk result (AreBelow (call + 1) state.new.lines) }
    ensures number { OnOk result (write_point state.new ≡ write_point state.old + 1) }
{
    state.ready()?;
    let batch = Arc::new(alloc, batch_of(alloc, row)?)?;
    let draft = Draft::new(alloc, &batch)?;
    let caller = Caller { handler: 1, call };
    let entry = state.begin_edit(caller, 1000, batch, draft);
    Ok(state.end_edit(entry, ended))
}

const EDITS: u32 = 20_000;

/// A version, which is still held when the next one is made.
fn version_of(alloc: Global, state: &mut RegionState) -> Result<&'static Arc<Version, Global>, Fail>
    ensures same { OnOk result ((state.new.lines ≡ state.old.lines) × (write_point state.new ≡ write_point state.old)) }
{
    let version = state.next_version(alloc)?;
    Ok(Box::leak(Box::new(alloc, version)?))
}

/// How many rows of a version stand in segments that the versions before it don't share. The region and the version hold
/// each segment once, and each version before that shares it too.
fn rows_made(version: &Version) -> usize {
    let mut made = 0_usize;
    for part in version.segments() {
        if Arc::strong_count(part) <= 2 {
            made = made.saturating_add(part.len());
        }
    }
    made
}

/// Puts a row of its own under each call, and shows it: how many rows all versions together made, and the greatest
/// number of segments that one of them has.
fn put_many(alloc: Global, state: &mut RegionState) -> Result<(usize, usize), Fail>
    requires { (state.old.lines ≡ []) × (state.old.base.last ≡ 0) }
{
    let mut made = 0_usize;
    let mut most = 0_usize;
    for call in 1..EDITS + 1 {
        put(alloc, state, call, &call.to_be_bytes(), Ended::Done)?;
        let version = version_of(alloc, state)?;
        made = made.saturating_add(rows_made(version));
        most = most.max(version.segments().len());
    }
    Ok((made, most))
}

#[test]
fn many_edits_stay_in_few_segments(rt: HostRuntime) -> Result<(), Fail> {
    let state = empty_region(rt.alloc())?;
    let (made, most) = put_many(rt.alloc(), state)?;
    assert!(rt; most <= 15 && 20_000 <= made && made <= 20_000 * 15);
    Ok(())
}

/// Puts the rows `a`, `b` and `c`, of which the second edit fails. The last read point.
fn put_three(alloc: Global, state: &mut RegionState) -> Result<u64, Fail>
    requires { (state.old.lines ≡ []) × (state.old.base.last ≡ 0) }
{
    put(alloc, state, 1, b"a", Ended::Done)?;
    put(alloc, state, 2, b"b", Ended::Failed)?;
    put(alloc, state, 3, b"c", Ended::Done)
}

/// Whether the walk's next cell has this sequence id and this row.
fn is_next(walk: &mut MergeIter<'_>, number: u64, bytes: &[u8]) -> bool {
    match walk.next_row() {
        Some(row) => row.number() == number && row.cell().row.as_slice() == bytes,
        None => false,
    }
}

/// Whether the version shows the cells of the first edit and of the third one, and no other.
fn shows_first_and_third(alloc: Global, version: &Version) -> Result<bool, Fail> {
    let mut walk = version.scan(alloc, b"", b"")?;
    let is_shown = is_next(&mut walk, 1, b"a") && is_next(&mut walk, 3, b"c");
    Ok(is_shown && walk.next_row().is_none())
}

#[test]
fn failed_edit_is_passed_and_not_shown(rt: HostRuntime) -> Result<(), Fail> {
    let alloc = rt.alloc();
    let state = empty_region(alloc)?;
    let point = put_three(alloc, state)?;
    let version = version_of(alloc, state)?;
    assert!(rt; point == 3 && version.point() == 3);
    assert!(rt; shows_first_and_third(alloc, version)?);
    Ok(())
}
