//! A put into one region, with its memory.

ghost use Rattle.std.specs.Prelude.{◌≡◌, ◌≤◌, ◌<◌, ◌^◌};
ghost use Rattle.pass_calls.specs.log_service.Places.{IsSeatOf, IsLaterSeat};
ghost use Rattle.pass_calls.specs.region_lock.Answers.{is_sync, put_answer};
ghost use Rattle.pass_calls.specs.region_lock.Calls.{PutsAt};
ghost use Rattle.pass_calls.specs.region_lock.Parts.{AreCalledBelow};
ghost use Rattle.pass_calls.specs.region_lock.Passes.{IsAtService, SamePass, known_of};
ghost use Rattle.pass_calls.specs.region_lock.Puts.{AsksLog, IsFaultExact, WatchesFault};

use disk_images::Disk;
use kv_cell::{Batch, Durability, NoMemory};
use pass_calls::log_service::{LogSeat, LogService};
use pass_calls::region_lock::{Gate, Locked, PutRefusal, RegionPass};
use pass_calls::{prepare, put_in};
use region_state::Caller;
use std::alloc::Global;
use std::sync::{Mutex, Wait};

/// Takes the memory of an edit, and puts it in.
pub(crate) fn put_at<
    N: pass_calls::region_lock::LockNaming
        + pass_calls::log_service::ServiceNaming
        + region_versions::VersionsNaming,
    D: Disk,
    R: Wait + Drop,
    G: Gate,
    S: Wait,
>(
    rt: &S,
    alloc: Global,
    service: &LogService<D, N>,
    lock: &Mutex<Locked<N, R>>,
    at: &mut RegionPass<N>,
    seat: &mut LogSeat,
    caller: Caller,
    time: u64,
    durability: Durability,
    batch: Batch,
    gate: &G,
) -> Result<u64, PutRefusal>
    requires service { IsAtService N.ring service.now at.old.viewer.region seat.old × (at.old.viewer.region ≤ 64) }
    requires time { time < 2 ^ 63 }
    requires caller { (caller.handler ≡ at.old.hand.number) × AreCalledBelow caller.call at.old.hand.record.list }
    ensures puts { PutsAt (N.region_base at.old.viewer.region) time at.old.viewer.region (is_sync durability) batch caller (put_answer result)
        (known_of service.now.regions at.old seat.old) (known_of service.now.regions at.new seat.new)
        seat.old.device.knows.broken seat.new.device.knows.broken }
    ensures same { SamePass at.old at.new }
    ensures seat { IsSeatOf service.now seat.new }
    ensures later { IsLaterSeat seat.old seat.new }
    ensures exact { IsFaultExact (is_sync durability) at.old.viewer.region result seat.old.device.knows seat.new.device.knows }
    ensures asked { AsksLog (is_sync durability) at.old.viewer.region result at.old.tally.asked at.new.tally.asked seat.new.device.knows.broken }
    ensures watched { WatchesFault result at.old.tally.watch at.new.tally.watch }
{
    let region = at.region();
    match prepare(alloc, region, caller, time, batch) {
        Ok(job) => put_in(rt, alloc, service, lock, at, seat, durability, job, gate),
        Err(NoMemory) => Err(PutRefusal::Memory { logged: None }),
    }
}
