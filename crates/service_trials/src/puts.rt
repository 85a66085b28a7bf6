//! What a member pushes.

ghost use Rattle.std.specs.Prelude.{◌≡◌, IsTrue, IsFalse};
ghost use Rattle.append_ring.specs.Parts.{last_pushed};
ghost use Rattle.append_ring.specs.Rules.{Follows, next_or};
ghost use Rattle.log_service.specs.Items.{region_of, number_of, IsWholeItem};
ghost use Rattle.log_service.specs.Places.{IsSeatOf};
ghost use Rattle.service_trials.specs.Crew.{IsOf};

use crate::entries::truck;
use crate::held::HeldDisk;
use crate::member::Member;
use crate::steps::Way;
use crate::watch::Watch;
use append_ring::RingKey;
use log_service::{Helped, Item, LogSeat, LogService, ServiceNaming};
use std::alloc::Global;
use std::sync::Wait;
use std::thread;

/// How many edits a member puts at most.
const MOST: u64 = 2_000;

/// Helps the log once. Where another thread does it, it sleeps until a turn of the device has ended.
fn help<N: ServiceNaming, R: Wait>(rt: &R, service: &LogService<HeldDisk, N>, seat: &mut LogSeat)
    requires { IsSeatOf service.now seat.old }
    ensures { IsSeatOf service.now seat.new }
{
    let turns = service.turns();
    match service.help(rt, seat) {
        Helped::Something => {}
        Helped::Busy => service.rest(rt, turns),
        Helped::Nothing => thread::yield_now(),
    }
}

/// Pushes an item. Each time that it finds the ring full it adds one to `full`, and helps the log or sleeps. Whether it was pushed.
fn push<N: ServiceNaming, R: Wait>(
    rt: &R,
    service: &LogService<HeldDisk, N>,
    watch: &Watch,
    pass: &mut RingKey<Item>,
    seat: &mut LogSeat,
    full: &mut u64,
    item: Item,
    way: Way,
) -> bool
    requires ring { pass.old.pass.table_id ≡ service.now.ring }
    requires region { region_of item ≡ pass.old.region }
    requires whole { IsWholeItem item }
    requires follows { Follows number_of (last_pushed number_of pass.old) item }
    requires seat { IsSeatOf service.now seat.old }
    ensures pass { (pass.new.pass.table_id ≡ pass.old.pass.table_id) × (pass.new.region ≡ pass.old.region) }
    ensures pushed { IsTrue result → last_pushed number_of pass.new ≡ next_or number_of (last_pushed number_of pass.old) (number_of item) }
    ensures refused { IsFalse result → last_pushed number_of pass.new ≡ last_pushed number_of pass.old }
    ensures seat { IsSeatOf service.now seat.new }
{
    let mut item = item;
    for _try in 0..way.tries {
        match service.push(rt, pass, item) {
            Ok(()) => return true,
            Err(refused) => item = refused.item,
        }
        *full = full.wrapping_add(1);
        if way.helps {
            help(rt, service, seat);
        } else {
            watch.pause(rt);
        }
    }
    false
}

/// Pushes the member's next edit. Whether it was pushed.
pub(crate) fn put<N: ServiceNaming, R: Wait>(
    rt: &R,
    alloc: Global,
    service: &LogService<HeldDisk, N>,
    watch: &Watch,
    member: &mut Member,
    way: Way,
) -> bool
    requires { IsOf service.now member.old }
    ensures { IsOf service.now member.new }
{
    if member.pushed >= MOST {
        return false;
    }
    let number = member.pushed + 1;
    let Some(truck) = truck(alloc, member.pass.region, number) else {
        return false;
    };
    let Member {
        pass,
        seat,
        full,
        ..
    } = member;
    if !push(
        rt,
        service,
        watch,
        pass,
        seat,
        full,
        Item::Append(truck),
        way,
    ) {
        return false;
    }
    member.pushed = number;
    true
}

/// Pushes the wish that the member's edits be durable. Whether it was pushed.
pub(crate) fn ask<N: ServiceNaming, R: Wait>(
    rt: &R,
    service: &LogService<HeldDisk, N>,
    watch: &Watch,
    member: &mut Member,
    way: Way,
) -> bool
    requires { IsOf service.now member.old }
    ensures { IsOf service.now member.new }
{
    let region = member.pass.region;
    let number = member.pushed;
    let Member {
        pass,
        seat,
        full,
        ..
    } = member;
    push(
        rt,
        service,
        watch,
        pass,
        seat,
        full,
        Item::Sync { region, number },
        way,
    )
}
