//! How a berth is made.
ghost use Rattle.std.specs.Prelude.{◌≡◌, ℕ, ◌+◌, ◌-◌, ◌<◌, ◌≤◌, false, [], ◌∷◌, length, take, replicate, slice_index, vec_capacity, Some, IfOk, IfErr, MatchResult};
ghost use Rattle.log_berth.specs.Words.{known, idle, starts};
ghost use Rattle.log_berth.specs.Standing.{fresh};

use crate::berth::Berth;
use crate::known::{Known, Plan};
use crate::law::{Law, OnePart};
use crate::seats::{LogSeat, LogSeats};
use crate::ware::Ware;
use atomic_table::{Refused, Seat, Shared, Table};
use std::alloc::{AllocError, Global};

/// A berth and its seats.
#[derive(Drop)]
pub struct BerthParts<W: Ware> {
    pub berth: Berth<W>,
    pub seats: LogSeats,
}

/// There was no memory. The ware comes back.
#[derive(Drop)]
pub struct BerthRefusal<W> {
    pub ware: W,
}

// The words at the start: the ware's durable numbers, no fault and no turn.
fn words_of<W: Ware>(alloc: Global, ware: &W, regions: u32) -> Result<Vec<u64>, AllocError>
    ensures { IfOk result
        (λ v. (length v.items ≡ regions + 2) × (take regions v.items ≡ starts regions (W.numbers ware.now))
        × (slice_index v.items regions ≡ 0) × (slice_index v.items (regions + 1) ≡ 0)) }
{
    let count = regions as usize;
    let mut words = Vec::from_elem(alloc, 0, count + 2)?;
    for region in 0..regions {
        words[region as usize] = ware.durable(region + 1);
    }
    Ok(words)
}

// One seat with one part.
fn cut<W: Ware>(
    shared: &Shared<Option<W>, Known, Plan, Law<W>>,
    first: &mut Seat<Option<W>, Known>,
) -> LogSeat
    requires table { (first.old.table_id ≡ shared.now.table_id) × (0 < shared.now.table_id.words) }
    requires parts { (0 < first.old.me.0.parts) × (first.old.me.0 ≡ known first.old.me.0.parts false first.old.me.0.seen false [] idle) }
    ensures first { (first.new.table_id ≡ first.old.table_id) × (first.new.me.0 ≡ known (first.old.me.0.parts - 1) false first.old.me.0.seen false [] idle) }
    ensures seat { result ≡ fresh shared.now.table_id first.old.me.0.seen }
{
    let seat = shared.split_seat::<OnePart>(first);
    LogSeat {
        badge: seat.into_badge(),
    }
}

// A row with the ware alone, unless there is no memory.
fn one_slot<W>(alloc: Global, ware: W) -> Result<Vec<Option<W>>, W>
    ensures { MatchResult result (λ v. v.items ≡ Some ware ∷ []) (λ w. w ≡ ware) }
{
    let Ok(mut slots) = Vec::with_capacity(alloc, 1) else {
        return Err(ware);
    };
    slots.push_reserved(Some(ware));
    Ok(slots)
}

// The ware of such a row.
fn only<W>(mut slots: Vec<Option<W>>) -> W
    requires { (w : W) × (slots.items ≡ Some w ∷ []) }
    ensures { slots.items ≡ Some result ∷ [] }
{
    let Some(Some(ware)) = slots.pop() else {
        unreachable!()
    };
    slots.destroy_empty();
    ware
}

// The seats, into the room for them.
fn deal<W: Ware>(
    shared: &Shared<Option<W>, Known, Plan, Law<W>>,
    mut first: Seat<Option<W>, Known>,
    count: u32,
    mut seats: Vec<LogSeat>,
) -> LogSeats
    requires table { (first.table_id ≡ shared.now.table_id) × (0 < shared.now.table_id.words) }
    requires first { first.me.0 ≡ known count false first.me.0.seen false [] idle }
    requires room { (seats.items ≡ []) × (count ≤ vec_capacity seats) }
    ensures { (result.seats ≡ replicate count (fresh shared.now.table_id first.me.0.seen)) × (count ≤ result.room) }
{
    for _made in 0..count {
        seats.push_reserved(cut(shared, &mut first));
    }
    drop(first);
    LogSeats { seats }
}

impl<W: Ware> Berth<W> {
    /// A berth with this ware, which is not broken. Each synced word starts at the ware's durable number of its region, and the fault
    /// word at 0. Each seat has seen these numbers. It refuses where it is out of memory.
    pub fn new(
        alloc: Global,
        ware: W,
        regions: u32,
        seats: u32,
    ) -> Result<BerthParts<W>, BerthRefusal<W>>
        requires seats { 0 < seats }
        requires whole { W.is_broken ware ≡ false }
        ensures berth { IfOk result (λ parts. (parts.berth.regions ≡ regions) × (parts.berth.seats ≡ seats)) }
        ensures seats { IfOk result
            (λ parts. (parts.seats.seats ≡ replicate seats (fresh parts.berth.id (starts regions (W.numbers ware))))
            × (seats ≤ parts.seats.room)) }
        ensures refused { IfErr result (λ refusal. refusal.ware ≡ ware) }
    {
        let Ok(words) = words_of(alloc, &ware, regions) else {
            return Err(BerthRefusal { ware });
        };
        let Ok(room) = Vec::with_capacity(alloc, regions as usize) else {
            return Err(BerthRefusal { ware });
        };
        let Ok(places) = Vec::with_capacity(alloc, seats as usize) else {
            return Err(BerthRefusal { ware });
        };
        let slots = match one_slot(alloc, ware) {
            Ok(slots) => slots,
            Err(ware) => return Err(BerthRefusal { ware }),
        };
        let plan = Plan {
            regions,
            seats,
            words,
        };
        match Table::new(alloc, plan.words.as_slice(), slots, &plan) {
            Ok((table, first)) => {
                let seats_made = deal(&table.shared, first, seats, places);
                Ok(BerthParts {
                    berth: Berth {
                        table,
                        regions,
                        seats,
                        room,
                    },
                    seats: seats_made,
                })
            }
            Err(Refused { slots }) => Err(BerthRefusal { ware: only(slots) }),
        }
    }
}
