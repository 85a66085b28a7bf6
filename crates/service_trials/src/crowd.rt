//! The passes and the seats of a service of sixteen regions, which go to sixteen members and come back. It takes no memory.

ghost use Rattle.std.specs.Prelude.{◌≡◌, ◌+◌, ◌≤◌, ◌<◌, [], length, All, vec_capacity};
ghost use Rattle.service_trials.specs.Crew.{AreIn, AreOut, IsOf};

use crate::held::HeldDisk;
use crate::member::Member;
use append_ring::RingKeys;
use log_service::{Item, LogSeats, LogService, ServiceNaming};
use std::sync::Wait;

/// These are the same. Where they aren't, which no run shows, it does not return, and its test runs out of time.
fn sure_same<R: Wait>(rt: &R, one: u32, other: u32)
    ensures { one ≡ other }
{
    if one != other {
        for _ in rt.forever() {}
        unreachable!()
    }
}

/// Gives each of sixteen members, for whom there is room, its pass and its seat.
pub(crate) fn hand_out<N: ServiceNaming>(
    service: &LogService<HeldDisk, N>,
    passes: &mut RingKeys<Item>,
    seats: &mut LogSeats,
    crew: &mut Vec<Member>,
)
    requires regions { service.now.regions ≡ 16 }
    requires none { AreOut service.now 0 passes.old seats.old.consumers seats.old.devices }
    requires room { (crew.old.items ≡ []) × (16 ≤ vec_capacity crew.old) }
    ensures out { AreOut service.now 16 passes.new seats.new.consumers seats.new.devices }
    ensures crew { (length crew.new.items ≡ 16) × All (IsOf service.now) crew.new.items }
    ensures room { 16 ≤ vec_capacity crew.new }
{
    let _ = service;
    for given in 0..16u32 {
        let _ = given;
        let Some(pass) = passes.next() else {
            unreachable!()
        };
        let Some(seat) = seats.next() else {
            unreachable!()
        };
        crew.push_reserved(Member {
            pass,
            seat,
            pushed: 0,
            durable: 0,
            full: 0,
            right: 0,
        });
    }
}

/// What the members told: how many edits are durable, how often the ring was found full, and how many steps were answered as they have to
/// be.
#[derive(Clone, Copy)]
pub(crate) struct Told {
    pub(crate) durable: u64,
    pub(crate) full: u64,
    pub(crate) right: u64,
}

impl Told {
    pub(crate) fn nothing() -> Told {
        Told {
            durable: 0,
            full: 0,
            right: 0,
        }
    }

    fn and(self, other: Told) -> Told {
        Told {
            durable: self.durable.wrapping_add(other.durable),
            full: self.full.wrapping_add(other.full),
            right: self.right.wrapping_add(other.right),
        }
    }
}

/// Takes back what a member has, which is of the region after this one. What it told.
fn one_back<N: ServiceNaming, R: Wait>(
    rt: &R,
    service: &LogService<HeldDisk, N>,
    member: Member,
    passes: &mut RingKeys<Item>,
    seats: &mut LogSeats,
    before: u32,
) -> Told
    requires before { before < 16 }
    requires back { AreIn service.now before passes.old seats.old.consumers seats.old.devices }
    requires of { IsOf service.now member }
    ensures { AreIn service.now (before + 1) passes.new seats.new.consumers seats.new.devices }
{
    let _ = service;
    let Member {
        pass,
        seat,
        pushed: _,
        durable,
        full,
        right,
    } = member;
    sure_same(rt, pass.region, before + 1);
    passes.put_back(pass);
    seats.put_back(seat);
    Told {
        durable,
        full,
        right,
    }
}

/// Takes all back, in the order of the regions. What they told, summed up.
pub(crate) fn take_back<N: ServiceNaming, R: Wait>(
    rt: &R,
    service: &LogService<HeldDisk, N>,
    crew: Vec<Member>,
    passes: &mut RingKeys<Item>,
    seats: &mut LogSeats,
) -> Told
    requires out { AreOut service.now 16 passes.old seats.old.consumers seats.old.devices }
    requires crew { (length crew.items ≡ 16) × All (IsOf service.now) crew.items }
    ensures { AreIn service.now 16 passes.new seats.new.consumers seats.new.devices }
{
    let mut all = Told::nothing();
    let mut before: u32 = 0;
    for member in crew {
        let own = one_back(rt, service, member, passes, seats, before);
        all = all.and(own);
        before += 1;
    }
    all
}
