//! A flush of one region, between its mark's being set and being taken away.

ghost use Rattle.std.specs.Prelude.{◌≡◌, ◌≤◌, length, Err, IfSome, Contains};
ghost use Rattle.std.specs.Option.{option_map};
ghost use Rattle.hand_register.specs.Desks.{with_mark};
ghost use Rattle.region_model.specs.Lines.{last_in};
ghost use Rattle.region_lock.specs.log_service.Places.{IsSeatOf, IsLaterSeat, written_of};
ghost use Rattle.region_lock.specs.log_service.Counts.{flushed_by};
ghost use Rattle.region_lock.specs.Answers.{flush_answer, refused_flush};
ghost use Rattle.region_lock.specs.Calls.{FlushesAt};
ghost use Rattle.region_lock.specs.Logged.{FlushesLog, refused_as};
ghost use Rattle.region_lock.specs.Marks.{IsLookedAt};
ghost use Rattle.region_lock.specs.Passes.{IsAtService, SameButMark, SamePass, known_of};

use crate::holding::hold;
use disk_images::Disk;
use region_lock::log_service::log_device::DeviceFlush;
use region_lock::log_service::{LogSeat, LogService};
use region_lock::{FlushRefusal, LockNaming, Locked, RegionPass};
use region_state::Caller;
use std::alloc::Global;
use std::sync::{Mutex, Wait};

/// The look under the region's lock: this flush's mark is set, and the write point is given, which is at or above all that the pass has
/// seen; or another handler's flush is under way.
fn look<
    N: LockNaming + region_lock::log_service::ServiceNaming + region_versions::VersionsNaming,
    R: Wait + Drop,
    S: Wait,
>(rt: &S, lock: &Mutex<Locked<N, R>>, at: &mut RegionPass<N>, by: Caller) -> Result<u64, Caller>
    requires caller { (by.handler ≡ at.old.hand.number) × (1 ≤ by.call) × Contains (N.flushes at.old.viewer.region) by }
    requires free { at.old.hand.record.mark ≡ 0 }
    ensures looked { IsLookedAt (last_in (N.region_base at.old.viewer.region) at.old.viewer.lines) (N.flushes at.old.viewer.region) by at.old.hand.record
        result at.new.hand.record }
    ensures same { SameButMark at.old at.new }
{
    let region = at.viewer.region();
    let seen = at.viewer.seen();
    hold(rt, lock, region, seen).look(&mut at.hand, by)
}

/// Takes the flush's mark away, in another hold of the region's lock.
fn unmark<
    N: LockNaming + region_lock::log_service::ServiceNaming + region_versions::VersionsNaming,
    R: Wait + Drop,
    S: Wait,
>(rt: &S, lock: &Mutex<Locked<N, R>>, at: &mut RegionPass<N>)
    requires marked { 1 ≤ at.old.hand.record.mark }
    ensures clear { at.new.hand.record ≡ with_mark at.old.hand.record 0 }
    ensures same { SameButMark at.old at.new }
{
    let region = at.viewer.region();
    hold(rt, lock, region, 0).unmark(&mut at.hand);
}

/// A flush of one region, of one family (1 to 127 bytes) or of all where none is given: the look under the region's lock, which sets this
/// flush's mark; the log's flush up to the write point that was found there, with no lock held; and the mark is taken away, whatever the log
/// answered. The number flushed is at or above each one of the region that the pass has seen. `Flushing` exactly where a flush by that
/// caller was under way at the look.
pub fn flush_in<
    N: LockNaming + region_lock::log_service::ServiceNaming + region_versions::VersionsNaming,
    D: Disk,
    R: Wait + Drop,
    S: Wait,
>(
    rt: &S,
    alloc: Global,
    service: &LogService<D, N>,
    lock: &Mutex<Locked<N, R>>,
    at: &mut RegionPass<N>,
    seat: &mut LogSeat,
    by: Caller,
    family: Option<&[u8]>,
) -> Result<u64, FlushRefusal>
    requires family { IfSome family (λ f. (1 ≤ length f.now) × (length f.now ≤ 127)) }
    requires service { IsAtService N.ring service.now at.old.viewer.region seat.old }
    requires caller { (by.handler ≡ at.old.hand.number) × (1 ≤ by.call) × Contains (N.flushes at.old.viewer.region) by }
    requires free { at.old.hand.record.mark ≡ 0 }
    ensures flushes { FlushesAt (N.region_base at.old.viewer.region) (N.flushes at.old.viewer.region)
        (option_map (λ f. f.now) family.entry) by (flush_answer result)
        (known_of service.now.regions at.old seat.old) (known_of service.now.regions at.new seat.new)
        seat.old.device.knows.broken seat.new.device.knows.broken }
    // Unless the log is broken, what it answers is of what the log kept of the family.
    ensures family { FlushesLog D.Disk N.ServiceNaming service.now.regions at.old.viewer.region (option_map (λ f. f.now) family.entry)
        seat.new result }
    // After Ok the flushes of this seat have written a store file more, and else none.
    ensures counted { written_of seat.new ≡ flushed_by result (written_of seat.old) }
    ensures same { SamePass at.old at.new }
    ensures seat { IsSeatOf service.now seat.new }
    ensures later { IsLaterSeat seat.old seat.new }
{
    let region = at.viewer.region();
    let upto = match look(rt, lock, at, by) {
        Ok(upto) => upto,
        Err(by) => return Err(FlushRefusal::Flushing { by }),
    };
    let flushed = service.flush(rt, alloc, seat, region, upto, family);
    unmark(rt, lock, at);
    // A match, since the proof goes by the branches.
    match flushed {
        Ok(number) => Ok(number),
        Err(refusal) => Err(refusal_of(refusal)),
    }
}

/// The log's refusal as the flush's.
fn refusal_of(refusal: DeviceFlush) -> FlushRefusal
    ensures answer { flush_answer (Err result) ≡ refused_flush refusal }
    ensures same { result ≡ refused_as refusal }
{
    match refusal {
        DeviceFlush::Memory => FlushRefusal::Memory,
        DeviceFlush::WriteFault => FlushRefusal::WriteFault,
        DeviceFlush::Nothing { flushed } => FlushRefusal::Nothing { flushed },
    }
}
