//! Sixteen members take their steps, each in a thread of its own.

ghost use Rattle.std.specs.Prelude.{◌≡◌, ◌≤◌, ◌<◌, length, All};
ghost use Rattle.log_service.specs.Places.{IsSeatOf};
ghost use Rattle.service_trials.specs.Crew.{IsOf};

use crate::held::HeldDisk;
use crate::member::Member;
use crate::puts::{ask, put};
use crate::steps::{BUSY, EMPTY, OTHER, Step, Trial, Turn};
use crate::watch::Watch;
use log_service::{ConsumerTurn, LogSeat, LogService, ServiceNaming, SyncTurn, Waited};
use std::alloc::Global;
use std::sync::Wait;
use std::thread::{Threads, for_each_mut};

fn moved(turn: ConsumerTurn) -> u64 {
    match turn {
        ConsumerTurn::Moved(count) => count,
        ConsumerTurn::Empty => EMPTY,
        _ => OTHER,
    }
}

fn synced(turn: SyncTurn) -> u64 {
    match turn {
        SyncTurn::Synced(count) => count,
        SyncTurn::Busy => BUSY,
        _ => OTHER,
    }
}

/// Takes a turn. What it is answered.
fn take_turn<N: ServiceNaming, R: Wait>(
    rt: &R,
    alloc: Global,
    service: &LogService<HeldDisk, N>,
    seat: &mut LogSeat,
    turn: Turn,
    region: u32,
    number: u64,
) -> u64
    requires seat { IsSeatOf service.now seat.old }
    requires region { (0 < region) × (region ≤ service.now.regions) }
    ensures { IsSeatOf service.now seat.new }
{
    match turn {
        Turn::Move => moved(service.consumer_turn(rt, seat)),
        Turn::Sync => synced(service.sync_turn(rt, seat)),
        Turn::Roll => match service.roll(rt, alloc, seat) {
            Ok(rolled) if rolled.closed == 1 => rolled.entries,
            _ => OTHER,
        },
        Turn::Flush => service
            .flush(rt, alloc, seat, region, number, None)
            .unwrap_or(OTHER),
        Turn::Wait => (service.wait_synced(rt, seat, region, number) == Waited::Synced) as u64,
    }
}

/// Takes a member's turn. What it is answered.
fn take<N: ServiceNaming, R: Wait>(
    rt: &R,
    alloc: Global,
    service: &LogService<HeldDisk, N>,
    member: &mut Member,
    turn: Turn,
) -> u64
    requires { IsOf service.now member.old }
    ensures { IsOf service.now member.new }
{
    let region = member.pass.region;
    let number = member.pushed;
    let Member { seat, .. } = member;
    let answer = take_turn(rt, alloc, service, seat, turn, region, number);
    if answer == 1 && matches!(turn, Turn::Wait) {
        member.durable = number;
    }
    answer
}

/// Takes a member's step. What it is answered.
fn take_step<N: ServiceNaming, R: Wait>(
    rt: &R,
    alloc: Global,
    service: &LogService<HeldDisk, N>,
    watch: &Watch,
    member: &mut Member,
    step: Step,
) -> u64
    requires { IsOf service.now member.old }
    ensures { IsOf service.now member.new }
{
    match step {
        Step::Put(way) => put(rt, alloc, service, watch, member, way) as u64,
        Step::Ask(way) => ask(rt, service, watch, member, way) as u64,
        Step::Take(turn) => take(rt, alloc, service, member, turn),
        Step::PutAnd(way, turn) => {
            if put(rt, alloc, service, watch, member, way) && ask(rt, service, watch, member, way) {
                take(rt, alloc, service, member, turn)
            } else {
                OTHER
            }
        }
        Step::Give(sign) => watch.give(rt, sign),
    }
}

/// Takes a member's step so many times, and counts how often it is answered so.
fn take_times<N: ServiceNaming, R: Wait>(
    rt: &R,
    alloc: Global,
    service: &LogService<HeldDisk, N>,
    watch: &Watch,
    member: &mut Member,
    step: Step,
    times: u64,
    wanted: u64,
)
    requires { IsOf service.now member.old }
    ensures { IsOf service.now member.new }
{
    for _ in 0..times {
        if take_step(rt, alloc, service, watch, member, step) == wanted {
            member.right = member.right.wrapping_add(1);
        }
    }
}

/// Takes all steps of a member.
fn take_all<N: ServiceNaming, R: Wait>(
    rt: &R,
    alloc: Global,
    service: &LogService<HeldDisk, N>,
    watch: &Watch,
    member: &mut Member,
    trial: Trial,
)
    requires { IsOf service.now member.old }
    ensures { IsOf service.now member.new }
{
    for row in trial.rows(member.pass.region) {
        let (step, times, wanted) = *row;
        take_times(rt, alloc, service, watch, member, step, times, wanted);
    }
}

/// Has each member take its steps in a thread of its own.
pub(crate) fn run_each<N: ServiceNaming + Send + Sync, R: Wait + Threads + Sync>(
    rt: &R,
    alloc: Global,
    service: &LogService<HeldDisk, N>,
    watch: &Watch,
    crew: &mut Vec<Member>,
    trial: Trial,
)
    requires { All (IsOf service.now) crew.old.items }
    ensures count { length crew.new.items ≡ length crew.old.items }
    ensures of { All (IsOf service.now) crew.new.items }
{
    for_each_mut(
        rt,
        crew.as_mut_slice(),
        16,
        &|_, member: &mut Member|
            requires { IsOf service.now member.now }
            ensures { IsOf service.entry.now member.exit.now }
        { take_all(rt, alloc, service, watch, member, trial) },
    );
}
