//! A put into one region, in its steps.

ghost use Rattle.std.specs.Prelude.{◌≡◌};
ghost use Rattle.std.specs.Arc.{arc_value};
ghost use Rattle.region_lock.specs.log_service.Places.{IsSeatOf, IsLaterSeat};
ghost use Rattle.region_lock.specs.log_service.Tallies.{HasAsked};
ghost use Rattle.region_lock.specs.Answers.{is_sync, put_answer};
ghost use Rattle.region_lock.specs.Calls.{PutsAt};
ghost use Rattle.region_lock.specs.Jobs.{IsJob};
ghost use Rattle.region_lock.specs.Parts.{AreCalledBelow};
ghost use Rattle.region_lock.specs.Passes.{IsAtService, SamePass, known_of};
ghost use Rattle.region_lock.specs.Puts.{AsksLog, HasLooked, IsAskedFor, IsFaultExact, IsLogged};

use crate::drawing::draw;
use crate::ending::{Left, end, show};
use crate::waiting::help;
use disk_images::Disk;
use kv_cell::Durability;
use region_lock::log_service::{Asked, LogSeat, LogService};
use region_lock::{Gate, Job, LockNaming, Locked, PutRefusal, RegionPass, wait_logged};
use region_state::{Caller, Ended};
use std::alloc::Global;
use std::sync::{Mutex, Wait};

/// Asks that the region's entries up to the number be durable: pushes one sync request, in as many tries as it takes. Given up only where
/// the fault word was seen set.
fn ask<
    N: LockNaming + region_lock::log_service::ServiceNaming + region_versions::VersionsNaming,
    D: Disk,
    R: Wait + Drop,
    S: Wait,
>(
    rt: &S,
    service: &LogService<D, N>,
    lock: &Mutex<Locked<N, R>>,
    asked: &mut Asked,
    region: u32,
    seat: &mut LogSeat,
    number: u64,
)
    requires service { IsAtService N.ring service.now region seat.old }
    ensures asked { HasAsked region number asked.old asked.new seat.new.device.knows.broken }
    ensures seat { IsSeatOf service.now seat.new }
    ensures later { IsLaterSeat seat.old seat.new }
{
    'asking: for _ in rt.forever() {
        if lock.lock(rt).ask(rt, service, asked, region, number) {
            return;
        }
        if service.broken(seat) {
            return;
        }
        help(rt, service, seat);
    }
    unreachable!()
}

/// Waits for what the put asked of the log, with no lock held. False where the log is broken below the number.
fn await_log<
    N: LockNaming + region_lock::log_service::ServiceNaming + region_versions::VersionsNaming,
    D: Disk,
    R: Wait + Drop,
    G: Gate,
    S: Wait,
>(
    rt: &S,
    service: &LogService<D, N>,
    lock: &Mutex<Locked<N, R>>,
    asked: &mut Asked,
    region: u32,
    caller: Caller,
    seat: &mut LogSeat,
    durability: Durability,
    number: u64,
    gate: &G,
) -> bool
    requires service { IsAtService N.ring service.now region seat.old }
    ensures logged { IsLogged (is_sync durability) result region number seat.new.device.knows }
    ensures asked { IsAskedFor (is_sync durability) region number asked.old asked.new seat.new.device.knows.broken }
    ensures seat { IsSeatOf service.now seat.new }
    ensures later { IsLaterSeat seat.old seat.new }
{
    match durability {
        Durability::Async => {
            gate.logged(rt, caller.handler, caller.call);
            true
        }
        Durability::Sync => {
            ask(rt, service, lock, asked, region, seat, number);
            gate.logged(rt, caller.handler, caller.call);
            wait_logged(rt, service, seat, region, number)
        }
    }
}

/// A put into one region, once its memory is taken: the number is drawn and the entry pushed in one hold of the region's lock; the put
/// waits for the log where durability was asked for, with no lock held; then the edit ends, and is shown. It answers the number once the
/// pass has seen a version at or above it.
///
/// A fault without a number is told exactly where the fault word was found set at the start, or after a try that found the ring full; a
/// fault with the number only where durability was asked for, and exactly where the fault word was seen set and then the synced word below
/// the number: the edit has then failed. Out of memory with the number: the edit is done, durable where that was asked for, and shown with
/// the region's next version.
pub fn put_in<
    N: LockNaming + region_lock::log_service::ServiceNaming + region_versions::VersionsNaming,
    D: Disk,
    R: Wait + Drop,
    G: Gate,
    S: Wait,
>(
    rt: &S,
    alloc: Global,
    service: &LogService<D, N>,
    lock: &Mutex<Locked<N, R>>,
    at: &mut RegionPass<N>,
    seat: &mut LogSeat,
    durability: Durability,
    job: Job,
    gate: &G,
) -> Result<u64, PutRefusal>
    requires service { IsAtService N.ring service.now at.old.viewer.region seat.old }
    requires job { IsJob at.old.viewer.region job }
    requires caller { (job.caller.handler ≡ at.old.hand.number) × AreCalledBelow job.caller.call at.old.hand.record.list }
    ensures puts { PutsAt (N.region_base at.old.viewer.region) job.time at.old.viewer.region
        (is_sync durability) (arc_value job.batch) job.caller (put_answer result)
        (known_of service.now.regions at.old seat.old) (known_of service.now.regions at.new seat.new)
        seat.old.device.knows.broken seat.new.device.knows.broken }
    ensures same { SamePass at.old at.new }
    ensures seat { IsSeatOf service.now seat.new }
    ensures later { IsLaterSeat seat.old seat.new }
    ensures exact { IsFaultExact (is_sync durability) at.old.viewer.region result seat.old.device.knows seat.new.device.knows }
    ensures asked { AsksLog (is_sync durability) at.old.viewer.region result at.old.tally.asked at.new.tally.asked seat.new.device.knows.broken }
    ensures watched { HasLooked result at.old.tally.watch at.new.tally.watch }
{
    if service.watch(seat, &mut at.tally.watch) {
        return Err(PutRefusal::WriteFault { number: None });
    }
    let region = at.viewer.region();
    let caller = job.caller;
    // In one hold of the lock: the number, the place in the ring, and the pending line of the journal.
    let entry = draw(rt, service, lock, at, seat, job)?;
    let number = entry.number();
    // With no lock held: the log.
    if !await_log(
        rt,
        service,
        lock,
        &mut at.tally.asked,
        region,
        caller,
        seat,
        durability,
        number,
        gate,
    ) {
        let _left = end(rt, alloc, lock, at, entry, Ended::Failed);
        service.tell_show(region);
        return Err(PutRefusal::WriteFault {
            number: Some(number),
        });
    }
    // In a second hold: the edit ends, and is shown where none before it is pending.
    let left = end(rt, alloc, lock, at, entry, Ended::Done);
    service.tell_show(region);
    let waits = match left {
        Left::Nothing => return Ok(number),
        Left::Show => false,
        Left::Wait => true,
    };
    // Else it is shown by who ends the edit before it, or by this put.
    match show(rt, alloc, service, lock, at, seat, number, waits) {
        Ok(()) => Ok(number),
        Err(_) => {
            Err(PutRefusal::Memory {
                logged: Some(number),
            })
        }
    }
}
