//! How a put draws its number, in as many tries as it takes.

ghost use Rattle.std.specs.Prelude.{◌≡◌};
ghost use Rattle.region_model.specs.Lines.{last_in};
ghost use Rattle.region_lock.specs.log_service.Places.{IsSeatOf, IsLaterSeat};
ghost use Rattle.region_lock.specs.Jobs.{IsJob};
ghost use Rattle.region_lock.specs.Parts.{AreCalledBelow};
ghost use Rattle.region_lock.specs.Passes.{IsAtService, SameView};
ghost use Rattle.region_lock.specs.Puts.{IsAttempted, IsDrawn, IsWatched, HasDrawn};

use crate::holding::hold;
use crate::waiting::help;
use disk_images::Disk;
use region_lock::log_service::{LogSeat, LogService};
use region_lock::{Job, LockNaming, Locked, PutRefusal, RegionPass, Tried};
use std::sync::{Mutex, Wait};
use write_queue::WriteEntry;

/// One try to begin the edit under the region's lock. Where the ring was full the fault word is loaded after it: the job comes back, to be tried
/// again, only where that load found the word clear.
fn attempt<
    N: LockNaming + region_lock::log_service::ServiceNaming + region_versions::VersionsNaming,
    D: Disk,
    R: Wait + Drop,
    S: Wait,
>(
    rt: &S,
    service: &LogService<D, N>,
    lock: &Mutex<Locked<N, R>>,
    at: &mut RegionPass<N>,
    seat: &mut LogSeat,
    job: Job,
) -> Result<Result<WriteEntry, PutRefusal>, Job>
    requires service { IsAtService N.ring service.now at.old.viewer.region seat.old }
    requires job { IsJob at.old.viewer.region job }
    requires caller { (job.caller.handler ≡ at.old.hand.number) × AreCalledBelow job.caller.call at.old.hand.record.list }
    ensures drawn { IsAttempted (last_in (N.region_base at.old.viewer.region) at.old.viewer.lines) at.old.viewer.region job
        at.old.hand.record.list at.old.told.record.list result at.new.hand.record.list at.new.told.record.list seat.new.device.knows.broken }
    ensures watched { IsWatched result at.old.tally.watch at.new.tally.watch }
    ensures unasked { at.new.tally.asked ≡ at.old.tally.asked }
    ensures same { SameView at.old at.new }
    ensures seat { IsSeatOf service.now seat.new }
    ensures later { IsLaterSeat seat.old seat.new }
{
    let region = at.viewer.region();
    let seen = at.viewer.seen();
    let tried = hold(rt, lock, region, seen).draw(
        rt,
        service,
        &mut at.hand,
        &mut at.told,
        &mut at.tally.watch,
        job,
    );
    match tried {
        Tried::Begun(entry) => Ok(Ok(entry)),
        Tried::Spent { last } => Ok(Err(PutRefusal::NumbersSpent { last })),
        Tried::Memory => Ok(Err(PutRefusal::Memory { logged: None })),
        Tried::Again(back) => {
            if service.watch(seat, &mut at.tally.watch) {
                Ok(Err(PutRefusal::WriteFault { number: None }))
            } else {
                Err(back)
            }
        }
    }
}

/// Begins the edit, in as many tries as it takes, and helps after each that found the ring full.
pub(crate) fn draw<
    N: LockNaming + region_lock::log_service::ServiceNaming + region_versions::VersionsNaming,
    D: Disk,
    R: Wait + Drop,
    S: Wait,
>(
    rt: &S,
    service: &LogService<D, N>,
    lock: &Mutex<Locked<N, R>>,
    at: &mut RegionPass<N>,
    seat: &mut LogSeat,
    job: Job,
) -> Result<WriteEntry, PutRefusal>
    requires service { IsAtService N.ring service.now at.old.viewer.region seat.old }
    requires job { IsJob at.old.viewer.region job }
    requires caller { (job.caller.handler ≡ at.old.hand.number) × AreCalledBelow job.caller.call at.old.hand.record.list }
    ensures drawn { IsDrawn (last_in (N.region_base at.old.viewer.region) at.old.viewer.lines) job at.old.hand.record.list at.old.told.record.list
        result at.new.hand.record.list at.new.told.record.list seat.new.device.knows.broken }
    ensures watched { HasDrawn result at.old.tally.watch at.new.tally.watch }
    ensures unasked { at.new.tally.asked ≡ at.old.tally.asked }
    ensures same { SameView at.old at.new }
    ensures seat { IsSeatOf service.now seat.new }
    ensures later { IsLaterSeat seat.old seat.new }
{
    let mut job = job;
    'trying: for _ in rt.forever() {
        match attempt(rt, service, lock, at, seat, job) {
            Ok(drawn) => return drawn,
            Err(back) => job = back,
        }
        help(rt, service, seat);
    }
    unreachable!()
}
