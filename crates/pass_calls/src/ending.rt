//! How the edit of a put ends, and is shown.

ghost use Rattle.std.specs.Prelude.{◌≡◌, IsTrue, OnOk};
ghost use mathlib.Core.List.{IsPrefix};
ghost use Rattle.region_state.specs.Outcomes.{outcome_at_end};
ghost use Rattle.region_lock.specs.log_service.Places.{IsSeatOf, IsLaterSeat};
ghost use Rattle.region_lock.specs.Hands.{SameHand};
ghost use Rattle.region_lock.specs.Met.{HasSeen};
ghost use Rattle.region_lock.specs.Parts.{EndsPending, WasEnded};
ghost use Rattle.region_lock.specs.Passes.{SamePass};

use crate::holding::hold;
use disk_images::Disk;
use kv_cell::NoMemory;
use region_lock::log_service::{LogSeat, LogService};
use region_lock::{LockNaming, Locked, RegionPass};
use region_state::Ended;
use std::alloc::Global;
use std::sync::{Mutex, Wait};
use write_queue::WriteEntry;

/// What is left to do for an edit that has ended, until its pass has seen it shown: nothing, to show it, or to wait since one before it is
/// pending, and who ends that one shows both.
#[derive(Drop)]
pub(crate) enum Left {
    Nothing,
    Show,
    Wait,
}

/// Ends the edit of this region, and shows it where none before it is pending.
fn end_in<
    N: LockNaming + region_lock::log_service::ServiceNaming + region_versions::VersionsNaming,
    R: Wait + Drop,
>(
    alloc: Global,
    locked: &mut Locked<N, R>,
    at: &mut RegionPass<N>,
    entry: WriteEntry,
    ended: Ended,
) -> Left
    requires region { locked.old.state.region ≡ at.old.viewer.region }
    requires last { EndsPending at.old.hand.record.list entry }
    ensures own { WasEnded (outcome_at_end ended) at.old.hand.record.list at.new.hand.record.list }
    ensures told { at.new.told.record.list ≡ at.old.told.record.list }
    ensures pass { SamePass at.old at.new }
    ensures tally { at.new.tally ≡ at.old.tally }
    ensures lines { IsPrefix at.old.viewer.lines at.new.viewer.lines }
    ensures seen { result ≡ Left.Nothing → HasSeen (N.region_base at.new.viewer.region) entry at.new.hand.record.list at.new.viewer.lines }
{
    let number = entry.number();
    let point = locked.end(&mut at.hand, entry, ended);
    if point < number {
        return Left::Wait;
    }
    let _shown = locked.show(alloc);
    if number > at.viewer.point() {
        return Left::Show;
    }
    // For the proof: what the pass viewed begins the lock's lines, so in each run it is true.
    if locked.meet(at) {
        return Left::Nothing;
    }
    Left::Show
}

/// Ends the edit, in another hold of the region's lock, and shows it in the same hold where none before it is pending.
pub(crate) fn end<
    N: LockNaming + region_lock::log_service::ServiceNaming + region_versions::VersionsNaming,
    R: Wait + Drop,
    S: Wait,
>(
    rt: &S,
    alloc: Global,
    lock: &Mutex<Locked<N, R>>,
    at: &mut RegionPass<N>,
    entry: WriteEntry,
    ended: Ended,
) -> Left
    requires last { EndsPending at.old.hand.record.list entry }
    ensures own { WasEnded (outcome_at_end ended) at.old.hand.record.list at.new.hand.record.list }
    ensures told { at.new.told.record.list ≡ at.old.told.record.list }
    ensures pass { SamePass at.old at.new }
    ensures tally { at.new.tally ≡ at.old.tally }
    ensures lines { IsPrefix at.old.viewer.lines at.new.viewer.lines }
    ensures seen { result ≡ Left.Nothing → HasSeen (N.region_base at.new.viewer.region) entry at.new.hand.record.list at.new.viewer.lines }
{
    let region = at.viewer.region();
    let mut guard = hold(rt, lock, region, 0);
    end_in(alloc, &mut guard, at, entry, ended)
}

/// True where the pass has seen the number, and in the same hold of the region's lock each of its own lines up to there.
fn is_seen<
    N: LockNaming + region_lock::log_service::ServiceNaming + region_versions::VersionsNaming,
    R: Wait + Drop,
    S: Wait,
>(rt: &S, lock: &Mutex<Locked<N, R>>, at: &mut RegionPass<N>, number: u64) -> bool
    ensures seen { IsTrue result → HasSeen (N.region_base at.new.viewer.region) number at.new.hand.record.list at.new.viewer.lines }
    ensures own { (at.new.hand.record ≡ at.old.hand.record) × SameHand at.old.hand at.new.hand }
    ensures told { at.new.told.record.list ≡ at.old.told.record.list }
    ensures tally { at.new.tally ≡ at.old.tally }
    ensures region { at.new.viewer.region ≡ at.old.viewer.region }
    ensures lines { IsPrefix at.old.viewer.lines at.new.viewer.lines }
{
    if at.viewer.point() < number {
        return false;
    }
    // For the proof: what the pass viewed begins the lines under the lock (`meet`'s clause is what this hold is for), so in each run it is true.
    let region = at.viewer.region();
    hold(rt, lock, region, 0).meet(at)
}

/// Waits until the pass sees the number, where an edit before it is pending, and else shows. After a wait it shows again: a version that
/// another put had no memory for is shown by nobody else.
pub(crate) fn show<
    N: LockNaming + region_lock::log_service::ServiceNaming + region_versions::VersionsNaming,
    D: Disk,
    R: Wait + Drop,
    S: Wait,
>(
    rt: &S,
    alloc: Global,
    service: &LogService<D, N>,
    lock: &Mutex<Locked<N, R>>,
    at: &mut RegionPass<N>,
    seat: &mut LogSeat,
    number: u64,
    waits: bool,
) -> Result<(), NoMemory>
    requires service { IsSeatOf service.now seat.old }
    ensures seen { OnOk result (HasSeen (N.region_base at.new.viewer.region) number at.new.hand.record.list at.new.viewer.lines) }
    ensures region { at.new.viewer.region ≡ at.old.viewer.region }
    ensures lines { IsPrefix at.old.viewer.lines at.new.viewer.lines }
    ensures own { (at.new.hand.record ≡ at.old.hand.record) × SameHand at.old.hand at.new.hand }
    ensures told { at.new.told.record.list ≡ at.old.told.record.list }
    ensures tally { at.new.tally ≡ at.old.tally }
    ensures seat { IsSeatOf service.now seat.new }
    ensures later { IsLaterSeat seat.old seat.new }
{
    let region = at.viewer.region();
    let mut waits = waits;
    'showing: for _ in rt.forever() {
        let shows = service.shows(region);
        if is_seen(rt, lock, at, number) {
            return Ok(());
        }
        if waits {
            let _helped = service.help(rt, seat);
            service.rest_shows(rt, region, shows);
        } else {
            lock.lock(rt).show(alloc)?;
            service.tell_show(region);
        }
        waits = !waits;
    }
    unreachable!()
}
