//! A region whose lines are put, added to its history and shown. Its parts are lent, so that nothing here drops them.

ghost use Rattle.std.specs.Prelude.{◌≡◌, [], ◌+◌, ◌<◌, ◌^◌, length, IfOk, OnOk};
ghost use Rattle.region_state.specs.Calls.{AreBelow};
ghost use Rattle.region_state.specs.States.{write_point};
ghost use Rattle.service_trials.specs.AllShown.{IsAllShown, IsOneMore};

use crate::cells::batch_of;
use kv_cell::{Batch, NoMemory};
use mem_segments::{Base, Draft, Segment};
use region_state::{Caller, Ended, RegionState};
use region_versions::{History, Shower, VersionsNaming};
use std::alloc::Global;
use std::sync::{Arc, Wait};
use std::test::Fail;

/// A region with no cell.
pub(crate) fn empty_region(alloc: Global) -> Result<RegionState, Fail>
    ensures lines { IfOk result (λ s. s.lines ≡ []) }
    ensures last { IfOk result (λ s. s.base.last ≡ 0) }
{
    let base = Base {
        cells: Arc::new(alloc, Segment::new(alloc))?,
        last: 0,
    };
    Ok(RegionState::new(alloc, 1, base)?)
}

/// Puts these cells, as the call of this number.
fn put(
    alloc: Global,
    state: &mut RegionState,
    call: u32,
    batch: Arc<Batch, Global>,
) -> Result<(), NoMemory>
    requires below { AreBelow call state.old.lines }
    requires number { write_point state.old + 1 < 2 ^ 48 }
    ensures base { state.new.base ≡ state.old.base }
    ensures below { OnOk result (AreBelow (call + 1) state.new.lines) }
    ensures lines { OnOk result (IsOneMore state.old.lines state.new.lines) }
{
    let _numbered = state.journal();
    let draft = Draft::new(alloc, &batch)?;
    state.ready()?;
    let caller = Caller { handler: 1, call };
    let entry = state.begin_edit(caller, 1000, batch, draft);
    state.end_edit(entry, Ended::Done);
    Ok(())
}

/// Puts a cell, and shows it. An error is out of memory, or a call that isn't the next one, which no run shows.
pub(crate) fn show_next<N: VersionsNaming, W: Wait + Drop>(
    alloc: Global,
    state: &mut RegionState,
    history: &mut History<N>,
    shower: &mut Shower<N, W>,
    call: u32,
) -> Result<(), NoMemory>
    requires shown { IsAllShown (N.region_base history.old.region) state.old history.old shower.old.shown }
    ensures region { history.new.region ≡ history.old.region }
    ensures shown { OnOk result (IsAllShown (N.region_base history.new.region) state.new history.new shower.new.shown) }
{
    if state.journal().len() + 1 != call as usize || state.next_number().is_none() {
        return Err(NoMemory);
    }
    let batch = Arc::new(alloc, batch_of(alloc, b"r").ok_or(NoMemory)?)?;
    put(alloc, state, call, batch)?;
    let version = state.next_version(alloc)?;
    let lines = state.journal();
    if version.point() != state.write_point() || !history.push(&lines[lines.len() - 1]) {
        return Err(NoMemory);
    }
    shower.show(version, history.front())
}
