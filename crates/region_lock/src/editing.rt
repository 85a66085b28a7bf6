//! How an edit is begun and ended under its region's lock.

ghost use Rattle.std.specs.Prelude.{◌≡◌, ℕ, ◌+◌, ◌<◌, ◌≤◌, ◌^◌, IsTrue, IsFalse, MatchResult};
ghost use Rattle.hand_register.specs.Desks.{with_value};
ghost use Rattle.log_model.specs.Entry.{Entry, entry_frame};
ghost use Rattle.log_service.specs.Tallies.{asked_for, found_full};
ghost use Rattle.region_model.specs.Lines.{with_outcome};
ghost use Rattle.region_state.specs.States.{write_point, IsReadPoint};
ghost use Rattle.region_state.specs.Outcomes.{outcome_at_end};
ghost use Rattle.region_lock.specs.Hands.{SameHand};
ghost use Rattle.region_lock.specs.Jobs.{IsJob, IsBegun};
ghost use Rattle.region_lock.specs.Parts.{EndsPending, WasEnded, AreCalledBelow, with_lines};
ghost use Rattle.region_lock.specs.Tries.{IsTried, counted_by};

use crate::job::Job;
use crate::locked::Locked;
use crate::naming::LockNaming;
use disk_images::Disk;
use hand_register::Hand;
use log_service::{Asked, LogService, Watch};
use log_trucks::Truck;
use region_state::{Ended, Line};
use std::sync::Wait;
use write_queue::WriteEntry;

/// What came of a try to begin an edit. The number that was begun has to be ended.
pub enum Tried {
    Begun(WriteEntry),
    Spent { last: u64 },
    Memory,
    Again(Job),
}

impl<
    N: LockNaming + log_service::ServiceNaming + region_versions::VersionsNaming,
    R: Wait + Drop,
> Locked<N, R> {
    /// Tries to begin an edit. The number that it draws is above the write point.
    pub fn draw<D: Disk, S: Wait>(
        &mut self,
        rt: &S,
        service: &LogService<D, N>,
        hand: &mut Hand<Line>,
        told: &mut Hand<u64>,
        watch: &mut Watch,
        job: Job,
    ) -> Tried
        requires ring { service.now.ring ≡ N.ring }
        requires hand { hand.old.desk ≡ N.desk self.old.state.region }
        requires told { told.old.desk ≡ N.spent self.old.state.region }
        requires job { IsJob self.old.state.region job }
        requires caller { (job.caller.handler ≡ hand.old.number) × AreCalledBelow job.caller.call hand.old.record.list }
        ensures tried { (seen : ℕ) → seen ≤ write_point self.old.state
            → IsTried self.old.state.region seen job hand.old.record.list told.old.record.list result hand.new.record.list told.new.record.list }
        ensures mark { hand.new.record.mark ≡ hand.old.record.mark }
        ensures hand { SameHand hand.old hand.new }
        ensures told { SameHand told.old told.new }
        // Where the job comes back the ring was found full.
        ensures counted { watch.new ≡ counted_by result watch.old }
    {
        if self.write_point() + 1 >= 1 << 48 {
            return Tried::Spent {
                last: self.tell_spent(told),
            };
        }
        if self.state.ready().is_err() {
            return Tried::Memory;
        }
        match self.begin(rt, service, hand, watch, job) {
            Ok(entry) => Tried::Begun(entry),
            Err(back) => Tried::Again(back),
        }
    }

    /// Draws the next number for an edit, pushes its entry, and puts its pending line after the journal and the handler's own list. Where
    /// the ring is full nothing changes, and the job comes back.
    fn begin<D: Disk, S: Wait>(
        &mut self,
        rt: &S,
        service: &LogService<D, N>,
        hand: &mut Hand<Line>,
        watch: &mut Watch,
        job: Job,
    ) -> Result<WriteEntry, Job>
        requires ring { service.now.ring ≡ N.ring }
        requires hand { hand.old.desk ≡ N.desk self.old.state.region }
        requires room { 1 ≤ self.old.state.room }
        requires number { write_point self.old.state + 1 < 2 ^ 48 }
        requires job { IsJob self.old.state.region job }
        requires caller { (job.caller.handler ≡ hand.old.number) × AreCalledBelow job.caller.call hand.old.record.list }
        ensures begun { IsBegun job self.old hand.old.record result self.new hand.new.record }
        ensures hand { SameHand hand.old hand.new }
        ensures counted { MatchResult result (λ _. watch.new ≡ watch.old) (λ _. watch.new ≡ found_full watch.old) }
    {
        let Job {
            caller,
            time,
            batch,
            draft,
            mut truck,
        } = job;
        // For the proof: the hand's record is the one that the desk keeps (its clause is what this call is for).
        self.desk.meet(hand);
        let number = self.state.write_point() + 1;
        stamp(&mut truck, number);
        match service.append(rt, &mut self.pass, watch, truck) {
            Ok(()) => {
                let entry = self.state.begin_edit(caller, time, batch, draft);
                let Locked { state, desk, .. } = self;
                let lines = state.journal();
                desk.add(hand, &lines[lines.len() - 1]);
                Ok(entry)
            }
            Err(truck) => {
                Err(Job {
                    caller,
                    time,
                    batch,
                    draft,
                    truck,
                })
            }
        }
    }

    /// Asks that the region's entries up to the number be durable, and counts it. False where the ring was full, or where it is another
    /// region's lock, which no run shows.
    pub fn ask<D: Disk, S: Wait>(
        &mut self,
        rt: &S,
        service: &LogService<D, N>,
        asked: &mut Asked,
        region: u32,
        number: u64,
    ) -> bool
        requires ring { service.now.ring ≡ N.ring }
        ensures same { self.new ≡ self.old }
        ensures counted { IsTrue result → asked.new ≡ asked_for region number asked.old }
        ensures uncounted { IsFalse result → asked.new ≡ asked.old }
    {
        if self.state.region() != region {
            return false;
        }
        service.ask(rt, &mut self.pass, asked, region, number)
    }

    /// Ends the handler's last line, which is pending, and gives the read point.
    pub fn end(&mut self, hand: &mut Hand<Line>, entry: WriteEntry, ended: Ended) -> u64
        requires hand { hand.old.desk ≡ N.desk self.old.state.region }
        requires last { EndsPending hand.old.record.list entry }
        ensures own { WasEnded (outcome_at_end ended) hand.old.record.list hand.new.record.list }
        ensures mark { hand.new.record.mark ≡ hand.old.record.mark }
        ensures lines { self.new ≡ with_lines self.old (with_outcome entry (outcome_at_end ended) self.old.state.lines) self.new.state.room }
        ensures point { IsReadPoint self.new.state result }
        ensures hand { SameHand hand.old hand.new }
    {
        // For the proof: the hand's record is the one that the desk keeps (its clause is what this call is for).
        self.desk.meet(hand);
        // For the proof: a journal is in order (its clause is what this call is for).
        let _all = self.state.journal();
        let number = entry.number();
        let point = self.state.end_edit(entry, ended);
        let Locked { state, desk, .. } = self;
        desk.amend(hand, state.line(number));
        point
    }

    /// Tells a hand that numbers are spent, and which one was the last.
    fn tell_spent(&mut self, told: &mut Hand<u64>) -> u64
        requires { told.old.desk ≡ N.spent self.old.state.region }
        ensures last { result ≡ write_point self.old.state }
        ensures told { told.new.record ≡ with_value told.old.record result }
        ensures same { self.new ≡ self.old }
        ensures hand { SameHand told.old told.new }
    {
        let last = self.state.write_point();
        self.spent.add(told, &last);
        last
    }
}

/// Gives a truck's entry its number.
fn stamp(truck: &mut Truck, number: u64)
    requires given { 1 ≤ number }
    requires number { number < 2 ^ 48 }
    ensures truck { truck.new ≡ record truck.old { number = number; bytes = truck.new.bytes } }
    ensures bytes { (e : Entry) → truck.old.bytes ≡ entry_frame e → truck.new.bytes ≡ entry_frame (record e { number = number }) }
{
    truck.number = number;
    truck.bytes.set_number(number);
}
