//! The half of a call that reads, in the worker's thread.

ghost use Rattle.std.specs.Prelude.{◌≡◌, ◌⊎◌, List, [], ◌∷◌, ◌++◌, IsTrue};
ghost use Rattle.crossbeam_queue.specs.Passes.{view};
ghost use Rattle.chronicle_model.specs.Chronicle.{Placed, Position as ThePosition};
ghost use Rattle.ship_queue.specs.declared.reading_half.Stage.TheVariants as stages;
ghost use Rattle.ship_queue.specs.Halves.{FitsItsLog, HasEnded, HasRead, HoldsWhole, IsKeyOf, ReadsOn, all_given, held_in};

use crate::gate::Gate;
use crate::reading::{Reading, read_next};
use append_ring::{Full, Ring, RingKey};
use disk_images::Disk;
use log_tail::{Tail, TailRefusal};
use std::alloc::Global;
use std::mem;
use std::sync::Wait;

/// What the half does next.
#[derive(Drop)]
pub(crate) enum Stage {
    /// It reads.
    Read,
    /// It pushes what it has read.
    Push(Reading),
    /// There was no more to read.
    AtEnd,
    /// The tail was refused.
    Refused(TailRefusal),
}

/// The half that reads, beside its tail and its disk.
#[derive(Drop)]
pub(crate) struct ReadingHalf {
    pub(crate) key: RingKey<Reading>,
    pub(crate) stage: Stage,
}

/// Reads once.
fn read_once<D: Disk>(alloc: Global, tail: &mut Tail, disk: &mut D) -> Stage
    ensures whole { HoldsWhole result }
    ensures reads { (p : ThePosition) (first : D) (xs : List Placed)
        → HasRead (IsTrue D.told) D.view D.faults p first tail.old disk.old xs stages.Read
        → HasRead (IsTrue D.told) D.view D.faults p first tail.new disk.new (xs ++ all_given (held_in result)) result }
{
    match read_next(alloc, tail, disk) {
        Ok(reading) => {
            if reading.is_last {
                Stage::AtEnd
            } else {
                Stage::Push(reading)
            }
        }
        Err(e) => Stage::Refused(e),
    }
}

impl ReadingHalf {
    /// Whether it reads no more.
    pub(crate) fn has_ended(&self) -> bool
        ensures { IsTrue result → HasEnded self.now.stage }
    {
        matches!(&self.stage, Stage::AtEnd | Stage::Refused(_))
    }

    /// Pushes the reading. False where the ring is full: then it is the next to be pushed.
    fn push<R: Wait>(&mut self, rt: &R, ring: &Ring<Reading>, gate: &Gate, reading: Reading) -> bool
        requires key { IsKeyOf ring.now self.old.key }
        requires whole { FitsItsLog reading }
        ensures key { IsKeyOf ring.now self.new.key }
        ensures whole { HoldsWhole self.new.stage }
        ensures same { (view self.new.key.pass).pushed ++ held_in self.new.stage ≡ (view self.old.key.pass).pushed ++ reading ∷ [] }
        ensures goes_on { (self.new.stage ≡ stages.Read) ⊎ (self.new.stage ≡ stages.Push reading) }
    {
        match ring.push(rt, &mut self.key, reading) {
            Ok(()) => {
                self.stage = Stage::Read;
                gate.tell();
                true
            }
            Err(Full { item }) => {
                self.stage = Stage::Push(item);
                false
            }
        }
    }

    /// Reads, or pushes what it has read. False where the ring is full, and where it reads no more.
    fn step<R: Wait, D: Disk>(
        &mut self,
        rt: &R,
        alloc: Global,
        ring: &Ring<Reading>,
        gate: &Gate,
        tail: &mut Tail,
        disk: &mut D,
    ) -> bool
        requires key { IsKeyOf ring.now self.old.key }
        requires whole { HoldsWhole self.old.stage }
        ensures key { IsKeyOf ring.now self.new.key }
        ensures whole { HoldsWhole self.new.stage }
        ensures reads { ReadsOn (IsTrue D.told) D.view D.faults tail.old tail.new disk.old disk.new self.old self.new }
    {
        match mem::replace(&mut self.stage, Stage::Read) {
            Stage::Read => {
                self.stage = read_once(alloc, tail, disk);
                true
            }
            Stage::Push(reading) => self.push(rt, ring, gate, reading),
            ended => {
                self.stage = ended;
                false
            }
        }
    }

    /// Whether its turn goes on after a step. Where the ring was full it sleeps before.
    fn goes_on<R: Wait>(&self, rt: &R, gate: &Gate, moves: u64, has_moved: bool) -> bool {
        if gate.has_peer_failed() {
            return false;
        }
        has_moved || (!self.has_ended() && gate.wait_for_room(rt, moves))
    }

    /// Its turn: reads on and pushes, until it reads no more, or the caller's turn has ended and the ring is full. Where the ring
    /// is full before that it sleeps.
    pub(crate) fn read_on<R: Wait, D: Disk>(
        &mut self,
        rt: &R,
        alloc: Global,
        ring: &Ring<Reading>,
        gate: &Gate,
        tail: &mut Tail,
        disk: &mut D,
    )
        requires key { IsKeyOf ring.now self.old.key }
        requires whole { HoldsWhole self.old.stage }
        ensures key { IsKeyOf ring.now self.new.key }
        ensures whole { HoldsWhole self.new.stage }
        ensures reads { ReadsOn (IsTrue D.told) D.view D.faults tail.old tail.new disk.old disk.new self.old self.new }
    {
        gate.begin_worker();
        for _step in rt.forever() {
            let moves = gate.moves();
            let has_moved = self.step(rt, alloc, ring, gate, tail, disk);
            if !self.goes_on(rt, gate, moves, has_moved) {
                gate.end_worker();
                return;
            }
        }
        unreachable!()
    }
}
