//! The steps of a berth. None of them waits.
ghost use Rattle.std.specs.Prelude.{◌≡◌, ◌≢◌, ℕ, ◌+◌, ◌-◌, ◌<◌, ◌≤◌, true, false, [], ◌∷◌, slice_index, IfOk, OnErr};
ghost use Rattle.log_berth.specs.declared.known.Known.{Known};
ghost use Rattle.log_berth.specs.Words.{saw, missed, looked, fault_set, without_turn, NoMore, Holds};
ghost use Rattle.log_berth.specs.Turns.{turn_id};

use crate::berth::{Berth, Busy, Turn};
use crate::known::Known;
use crate::law::{Break, Give, Hand, Raise, SeeFault, SeeWord, Take};
use crate::seats::LogSeat;
use crate::ware::Ware;
use atomic_table::{Badge, Seat};
use std::mem;

// The seat of a badge, which is blank until it is put back.
fn sit<W>(badge: &mut Badge<Known>) -> Seat<Option<W>, Known>
    requires { (v : Known) × (badge.old.views ≡ v ∷ []) }
    ensures { (result.table_id ≡ badge.old.table_id) × (badge.old.views ≡ result.me.0 ∷ []) × (result.me.1 ≡ []) }
{
    mem::replace(badge, Badge::blank()).into_seat()
}

impl<W: Ware> Berth<W> {
    /// Loads a region's synced word. It never falls for one seat, and once the seat saw the fault it stands.
    pub fn seen(&self, seat: &mut LogSeat, region: u32) -> u64
        requires seat { seat.old.berth ≡ self.now.id }
        requires region { (0 < region) × (region ≤ self.now.regions) }
        ensures later { slice_index seat.old.knows.seen (region - 1) ≤ result }
        ensures stands { seat.old.knows.broken ≡ true → result ≡ slice_index seat.old.knows.last (region - 1) }
        ensures known { (seat.new.berth ≡ seat.old.berth) × (seat.new.knows ≡ saw seat.old.knows (region - 1) result) }
    {
        let mut me = sit::<W>(&mut seat.badge);
        let found = self
            .table
            .shared
            .load::<SeeWord>(&mut me, region as usize - 1);
        seat.badge = me.into_badge();
        found
    }

    /// Loads the fault word, and says whether it is set. Once a seat saw it set, it stays set, and the synced words stand. A seat with
    /// the turn knows the answer.
    pub fn broken(&self, seat: &mut LogSeat) -> bool
        requires { seat.old.berth ≡ self.now.id }
        ensures same { (seat.new.berth ≡ seat.old.berth) × (seat.new.knows.parts ≡ seat.old.knows.parts)
            × (seat.new.knows.turn ≡ seat.old.knows.turn) × (seat.new.knows.seen ≡ seat.old.knows.seen) }
        ensures known { (seat.new.knows.broken ≡ result) × (seat.new.knows.tally ≡ looked seat.old.knows.tally) }
        ensures stays { seat.old.knows.broken ≡ true → (result ≡ true) × (seat.new.knows.last ≡ seat.old.knows.last) }
        ensures last { result ≡ true → NoMore seat.old.knows.seen seat.new.knows.last }
        ensures exact { seat.old.knows.turn ≡ true → result ≡ seat.old.knows.broken }
    {
        let mut me = sit::<W>(&mut seat.badge);
        let found = self
            .table
            .shared
            .load::<SeeFault>(&mut me, self.regions as usize);
        seat.badge = me.into_badge();
        found == 1
    }

    /// Raises a region's synced word to a number, at most the ware's durable one.
    pub fn raise(&self, seat: &mut LogSeat, turn: &Turn<W>, region: u32, number: u64)
        requires seat { seat.old.berth ≡ self.now.id }
        requires region { (0 < region) × (region ≤ self.now.regions) }
        requires turn { (seat.old.knows.turn ≡ true) × (turn_id turn.now ≡ self.now.id) }
        requires whole { seat.old.knows.broken ≡ false }
        requires number { (slice_index seat.old.knows.seen (region - 1) ≤ number) × (number ≤ slice_index (W.numbers turn.now.ware) (region - 1)) }
        ensures { (seat.new.berth ≡ seat.old.berth) × (seat.new.knows ≡ saw seat.old.knows (region - 1) number) }
    {
        // Nothing of the turn is read: that the caller has it is what the contract asks.
        let _ = turn;
        let mut me = sit::<W>(&mut seat.badge);
        self.table
            .shared
            .store::<Raise>(&mut me, region as usize - 1, number);
        seat.badge = me.into_badge();
    }

    /// Sets the fault word, where the ware is broken. From then on the synced words stand.
    pub fn break_log(&self, seat: &mut LogSeat, turn: &Turn<W>)
        requires seat { seat.old.berth ≡ self.now.id }
        requires turn { (seat.old.knows.turn ≡ true) × (turn_id turn.now ≡ self.now.id) }
        requires broken { W.is_broken turn.now.ware ≡ true }
        ensures { (seat.new.berth ≡ seat.old.berth) × (seat.new.knows ≡ fault_set seat.old.knows) }
    {
        // Nothing of the turn is read: that the caller has it is what the contract asks.
        let _ = turn;
        let mut me = sit::<W>(&mut seat.badge);
        self.table
            .shared
            .store::<Break>(&mut me, self.regions as usize, 1);
        seat.badge = me.into_badge();
    }

    /// Takes the turn, and with it the ware, by one exchange on the turn word. Busy only where that found the word taken.
    pub fn take(&self, seat: &mut LogSeat) -> Result<Turn<W>, Busy>
        requires { seat.old.berth ≡ self.now.id }
        ensures seat { seat.new.berth ≡ seat.old.berth }
        ensures taken { IfOk result (λ turn. (turn_id turn ≡ self.now.id) × Holds W.numbers W.is_broken seat.old.knows seat.new.knows turn.ware) }
        ensures busy { OnErr result ((found : ℕ) × (found ≢ 0) × (seat.new.knows ≡ missed seat.old.knows found)) }
    {
        let mut me = sit::<W>(&mut seat.badge);
        let turn = self.regions as usize + 1;
        if self
            .table
            .shared
            .compare_exchange::<Take<W>>(&mut me, turn, 0, 1)
            != 0
        {
            seat.badge = me.into_badge();
            return Err(Busy);
        }
        let Some(ware) = self.table.shared.exchange(&mut me, 0, None) else {
            unreachable!()
        };
        let knows = self.table.shared.split_seat::<Hand>(&mut me);
        seat.badge = knows.into_badge();
        Ok(Turn { ware, slot: me })
    }

    /// Gives the ware back, and the turn. The ware has to be broken exactly where the fault word is set.
    pub fn give(&self, seat: &mut LogSeat, turn: Turn<W>)
        requires seat { seat.old.berth ≡ self.now.id }
        requires turn { (seat.old.knows.turn ≡ true) × (turn_id turn ≡ self.now.id) }
        requires durable { NoMore seat.old.knows.seen (W.numbers turn.ware) }
        requires broken { W.is_broken turn.ware ≡ seat.old.knows.broken }
        ensures { (seat.new.berth ≡ seat.old.berth) × (seat.new.knows ≡ without_turn seat.old.knows) }
    {
        let Turn { ware, slot: mut me } = turn;
        match self.table.shared.exchange(&mut me, 0, Some(ware)) {
            None => {}
            Some(_) => unreachable!(),
        }
        let knows = sit::<W>(&mut seat.badge);
        self.table.shared.join_seat::<Hand>(&mut me, knows);
        self.table
            .shared
            .store::<Give>(&mut me, self.regions as usize + 1, 0);
        seat.badge = me.into_badge();
    }
}
