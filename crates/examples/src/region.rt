//! One region in memory, without a log, a lock or threads: edits get their numbers in order, and end done or failed. A version
//! is what a reader sees at a point: it stays as it is however the region goes on, and a failed edit shows nothing.

ghost use Rattle.std.specs.Prelude.{◌≡◌, ◌+◌, [], IfOk, OnOk};
ghost use Rattle.region_state.specs.Calls.{AreBelow};

use anyhow::{Result, bail};
use kv_cell::{Batch, Cell, Kind};
use mem_segments::{Base, Draft, Segment};
use region_state::{Caller, Ended, RegionState, Version};
use std::alloc::Global;
use std::sync::Arc;

/// Region 1 with no cell. Its edits are numbered from 1 on.
fn empty_region(alloc: Global) -> Result<RegionState>
    ensures { IfOk result (λ state. state.lines ≡ []) }
{
    let base = Base {
        cells: Arc::new(alloc, Segment::new(alloc))?,
        last: 0,
    };
    Ok(RegionState::new(alloc, 1, base)?)
}

/// Puts a person's name as an edit, which ends as it is told to, and gives the read point then: the greatest number up to
/// which each edit has ended.
///
/// An edit belongs to a call of a handler, and a handler's calls are counted upwards: so each line of the journal so far is to
/// be of a call below this one, and the next call may be one higher.
fn put_name(
    alloc: Global,
    state: &mut RegionState,
    call: u32,
    row: &[u8],
    name: &[u8],
    ended: Ended,
) -> Result<u64>
    requires below { AreBelow call state.old.lines }
    ensures below { OnOk result (AreBelow (call + 1) state.new.lines) }
{
    let mut cells = Vec::new(alloc);
    let time = 1_700_000_000_000;
    cells.push(Cell::new(alloc, row, b"info", b"name", time, Kind::Put.code(), name)?)?;
    let batch = Arc::new(alloc, Batch::new(cells)?)?;
    // The cells in order, made before the edit has a number: `begin_edit` takes no memory, and so can't fail half-way.
    let draft = Draft::new(alloc, &batch)?;
    state.ready()?;
    let Some(_number) = state.next_number() else {
        bail!("no number is left");
    };
    let entry = state.begin_edit(Caller { handler: 1, call }, 1000, batch, draft);
    // Here a server waits until the log has the edit on its disk. The entry can't be dropped: an edit that has a number ends.
    Ok(state.end_edit(entry, ended))
}

/// Prints the cells that a reader of this version sees: in order of rows, and of one column the latest edit first.
fn print_version<R: Print + AllocGlobal>(rt: &R, version: &Version) -> Result<()> {
    let point = version.point();
    let mut walk = version.scan(rt.alloc(), b"", b"")?;
    while let Some((number, cell)) = walk.next() {
        let row = String::from_utf8_lossy(rt.alloc(), cell.row.as_slice())?;
        let name = String::from_utf8_lossy(rt.alloc(), cell.value.as_slice())?;
        println!(rt; "at point {point}: {row} is {name}, by edit {number}")?;
    }
    Ok(())
}

/// Prints what two readers see of one region, one before and one after two more edits.
pub fn print_two_versions(rt: &HostRuntime) -> Result<()> {
    let alloc = rt.alloc();
    let mut state = empty_region(alloc)?;
    put_name(alloc, &mut state, 1, b"user1", b"Ann", Ended::Done)?;
    put_name(alloc, &mut state, 2, b"user2", b"Bob", Ended::Done)?;
    let before = state.next_version(alloc)?;
    put_name(alloc, &mut state, 3, b"user2", b"Eve", Ended::Failed)?;
    put_name(alloc, &mut state, 4, b"user1", b"Anna", Ended::Done)?;
    let after = state.next_version(alloc)?;
    print_version(rt, &before)?;
    print_version(rt, &after)
}
