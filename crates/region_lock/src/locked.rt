//! The value of a region's lock.

ghost use Rattle.std.specs.Prelude.{◌≡◌, ◌<◌, ◌≤◌, ◌^◌, ℕ, IsTrue, Contains};
ghost use mathlib.Core.List.{IsPrefix};
ghost use Rattle.log_service.specs.Closed.{HasPushedEntries};
ghost use Rattle.log_service.specs.declared.seats.LogSeat.{LogSeat};
ghost use Rattle.region_model.specs.Journal.{IsJournal};
ghost use Rattle.region_model.specs.Lines.{edits_in, handled_lines, last_in};
ghost use Rattle.region_state.specs.States.{write_point};
ghost use Rattle.region_lock.specs.Hands.{SameHand};
ghost use Rattle.region_lock.specs.Parts.{AreOwned, entries_in, with_lines};
ghost use Rattle.region_lock.specs.Met.{ArePlaced, IsMet};
ghost use Rattle.region_lock.specs.Passes.{known_of};

use crate::naming::LockNaming;
use crate::pass::RegionPass;
use crate::show::show_in;
use append_ring::RingKey;
use hand_register::Desk;
use kv_cell::NoMemory;
use log_service::Item;
use mem_segments::Base;
use region_state::{Caller, Line, RegionState};
use region_versions::{History, Shower};
use std::alloc::Global;
use std::marker::Model;
use std::sync::Wait;

/// The value of a region's lock: its state, its key of the ring, its two desks, the mark of a flush, the versions that are shown, and the
/// history of what was completed. Contracts see the state, and the call of the flush that is under way.
pub struct Locked<
    N: LockNaming + log_service::ServiceNaming + region_versions::VersionsNaming,
    R: Wait + Drop,
> {
    pub(crate) state: RegionState,
    pub(crate) pass: RingKey<Item>,
    pub(crate) desk: Desk<Line>,
    pub(crate) spent: Desk<u64>,
    pub(crate) mark: Option<Caller>,
    pub(crate) shower: Shower<N, R>,
    pub(crate) history: History<N>,
}

/// Written by hand: a derived `Drop` would be proved again in every crate that drops a lock.
impl<
    N: LockNaming + log_service::ServiceNaming + region_versions::VersionsNaming,
    R: Wait + Drop,
> Drop for Locked<N, R> {
    fn drop(self) {
        let Locked {
            state: _,
            pass: _,
            desk: _,
            spent: _,
            mark: _,
            shower: _,
            history: _,
        } = self;
    }
}

impl<
    N: LockNaming + log_service::ServiceNaming + region_versions::VersionsNaming,
    R: Wait + Drop,
> Model for Locked<N, R> {
    ghost use Rattle.std.specs.Prelude.{length};
    ghost use Rattle.region_lock.specs.Parts.{Part, coded_part, IsPart, IsNamed};
    ghost use Rattle.region_lock.specs.Histories.{HasShown};

    ghost Value = { Part };

    ghost coded = { coded_part };

    ghost view = { λ l. record { state = l.state; mark = l.mark } };

    ghost invariant = { λ l. IsPart (N.flushes l.state.region) l.state.region l.state.base l.state.lines l.mark l.desk.records l.spent.records l.pass
        × IsNamed N.desk N.spent N.ring N.region_base N.handlers l.state.region l.state.base
        (length l.desk.records) l.desk.id l.spent.id l.pass.pass.table_id l.pass.region
        × HasShown l.state.region l.state.lines l.history l.shower.shown };
}

impl<
    N: LockNaming + log_service::ServiceNaming + region_versions::VersionsNaming,
    R: Wait + Drop,
> Locked<N, R> {
    /// Which region it is.
    pub fn region(&self) -> u32
        ensures { result ≡ self.now.state.region }
    {
        self.state.region()
    }

    /// The last number that was drawn, or the base's.
    pub fn write_point(&self) -> u64
        ensures point { result ≡ write_point self.now.state }
        ensures limit { result < 2 ^ 48 }
        ensures base { self.now.state.base ≡ N.region_base self.now.state.region }
    {
        self.state.write_point()
    }

    /// Shows the version at the read point. Where memory is refused another one may do it later.
    pub fn show(&mut self, alloc: Global) -> Result<(), NoMemory>
        ensures same { self.new ≡ with_lines self.old self.old.state.lines self.new.state.room }
    {
        let version = self.state.next_version(alloc)?;
        let first = self.state.base().last;
        show_in(
            &mut self.shower,
            &mut self.history,
            self.state.journal(),
            first,
            version,
        )
    }

    /// What a pass knows of the region is what the lock keeps. False where it viewed more than was shown, which no run shows.
    pub fn meet(&mut self, at: &mut RegionPass<N>) -> bool
        requires { at.old.viewer.region ≡ self.old.state.region }
        ensures same { (self.new ≡ self.old) × (at.new.viewer ≡ at.old.viewer) }
        ensures tally { at.new.tally ≡ at.old.tally }
        ensures hand { (at.new.hand.record ≡ at.old.hand.record) × SameHand at.old.hand at.new.hand }
        ensures told { (at.new.told.record ≡ at.old.told.record) × SameHand at.old.told at.new.told }
        ensures own { at.new.hand.record.list ≡ handled_lines at.new.hand.number self.old.state.lines }
        ensures spent { (n : ℕ) → Contains at.new.told.record.list n → n ≤ last_in self.old.state.base self.old.state.lines }
        ensures shown { IsTrue result → IsPrefix at.new.viewer.lines self.old.state.lines }
        ensures placed { IsTrue result → ArePlaced (N.region_base self.old.state.region) at.new.hand.record.list at.new.viewer.lines }
        ensures met { IsTrue result → (n : ℕ) (seat : LogSeat)
            → IsMet self.old.state.base (edits_in self.old.state.region self.old.state.lines) at.new.hand.number (known_of n at.new seat) }
    {
        // For the proof: the lines are a journal from the base on, and each hand's record is the one that its desk keeps, so that the list is
        // the handler's lines, and what was told as spent is at most the last number (the clauses are what these three calls are for).
        let _all = self.state.journal();
        self.desk.meet(&mut at.hand);
        self.spent.meet(&mut at.told);
        at.viewer.is_within(self.history.front())
    }

    /// The base, the journal and the key of the ring, handed on, once no one views the region any more.
    pub fn into_parts(self) -> (Base, Vec<Line>, RingKey<Item>)
        ensures base { (result.0 ≡ self.state.base) × (self.state.base ≡ N.region_base self.state.region) }
        ensures lines { result.1.items ≡ self.state.lines }
        ensures journal { IsJournal self.state.region self.state.base (edits_in self.state.region self.state.lines) }
        ensures limit { write_point self.state < 2 ^ 48 }
        ensures ring { (result.2.pass.table_id ≡ N.ring) × (result.2.region ≡ self.state.region) }
        ensures pushed { HasPushedEntries result.2 (entries_in self.state.region self.state.lines) }
        ensures owners { AreOwned N.handlers self.state.lines }
    {
        let Locked {
            state,
            pass,
            desk: _,
            spent: _,
            mark: _,
            shower: _,
            history: _,
        } = self;
        let (base, lines) = state.into_parts();
        (base, lines, pass)
    }
}
