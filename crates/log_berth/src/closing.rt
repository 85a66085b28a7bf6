//! How a berth is closed.
ghost use Rattle.std.specs.Prelude.{◌≡◌, ℕ, ◌+◌, ◌<◌, ◌≤◌, ◌==◌, true, false, [], ◌∷◌, length, take, slice_index, vec_capacity, Some};
ghost use Rattle.std.specs.Slots.{slots_items, slots_len, IsFull};
ghost use mathlib.Core.Option.{some};
ghost use lib.ListN.{get_elem?};
ghost use Rattle.log_berth.specs.Words.{NoMore, Informs};
ghost use Rattle.log_berth.specs.Standing.{AreBack, AllSaw, InformAll};

use crate::berth::Berth;
use crate::known::{Known, Plan};
use crate::law::{Law, OnePart};
use crate::seats::{LogSeat, LogSeats};
use crate::synced::SyncedList;
use crate::ware::Ware;
use atomic_table::{Closed, Seat, Shared};
use std::alloc::Global;

/// What a berth held: the ware, the synced numbers, and whether the fault word was set.
#[derive(Drop)]
pub struct Berthed<W> {
    pub ware: W,
    pub synced: SyncedList,
    pub broken: bool,
}

// One seat that has the parts of all, and knows what they do.
fn joined<W: Ware>(
    shared: &Shared<Option<W>, Known, Plan, Law<W>>,
    mut me: Seat<Option<W>, Known>,
    mut seats: Vec<LogSeat>,
) -> Seat<Option<W>, Known>
    requires me { (me.table_id ≡ shared.now.table_id) × (me.me.1 ≡ []) × (me.me.0.turn ≡ false) × (0 < shared.now.table_id.words) }
    requires back { AreBack shared.now.table_id seats.items }
    ensures seat { (result.table_id ≡ shared.now.table_id) × (result.me.1 ≡ []) × (result.me.0.turn ≡ false)
        × (result.me.0.parts ≡ me.me.0.parts + length seats.items) }
    ensures first { Informs me.me.0 result.me.0 }
    ensures saw { InformAll seats.items result.me.0 }
{
    while let Some(seat) = seats.pop() {
        shared.join_seat::<OnePart>(&mut me, seat.into_seat());
    }
    me
}

// The numbers, the fault word and the ware of a table that no thread shares any more.
fn finish<W: Ware>(
    mut closed: Closed<Option<W>, Global>,
    regions: u32,
    mut synced: Vec<u64>,
) -> Berthed<W>
    requires counts { (slots_len closed.words ≡ regions + 2) × (slots_len closed.slots ≡ 1) }
    requires full { IsFull closed.words × IsFull closed.slots }
    requires ware { (w : W) × (get_elem? (slots_items closed.slots) 0 ≡ some (Some w)) }
    requires room { (synced.items ≡ []) × (regions ≤ vec_capacity synced) }
    ensures ware { get_elem? (slots_items closed.slots) 0 ≡ some (Some result.ware) }
    ensures synced { (result.synced ≡ take regions (slots_items closed.words)) × (length result.synced ≡ regions) }
    ensures broken { result.broken ≡ (slice_index (slots_items closed.words) regions == 1) }
{
    let broken = closed.word(regions as usize) == 1;
    let Some(ware) = closed.take(0) else {
        unreachable!()
    };
    for region in 0..regions {
        let number = closed.word(region as usize);
        synced.push_reserved(number);
    }
    closed.free();
    Berthed {
        ware,
        synced: SyncedList::of(synced),
        broken,
    }
}

impl<W: Ware> Berth<W> {
    /// Gives the ware and the synced words, once all seats and the turn are back. Where a seat saw the fault, they are those that stood
    /// then. It takes no memory.
    pub fn close(self, seats: LogSeats) -> Berthed<W>
        requires back { AreBack self.id seats.seats }
        requires all { length seats.seats ≡ self.seats }
        ensures ware { NoMore result.synced (W.numbers result.ware) × (result.broken ≡ W.is_broken result.ware) }
        ensures all { length result.synced ≡ self.regions }
        ensures saw { AllSaw seats.seats result.synced result.broken }
    {
        let Berth {
            table,
            regions,
            seats: _,
            room,
        } = self;
        let LogSeats { mut seats } = seats;
        let Some(first) = seats.pop() else {
            unreachable!()
        };
        let me = joined(&table.shared, first.into_seat(), seats);
        finish(table.close_with(me), regions, room)
    }
}
