//! What was moved is committed, by who has both turns.
ghost use Rattle.std.specs.Prelude.{◌≡◌, ◌<◌, ◌≤◌, ◌+◌, ◌⊎◌, ◌↔◌, ℕ, [], length, get_or, Err, IsTrue, IsFalse, IfOk, IfSome, OnOk, IsErrOf};
ghost use Rattle.std.specs.Option.{option_map};
ghost use Rattle.crossbeam_queue.specs.Passes.{view};
ghost use Rattle.log_device.specs.Whole.{IsBroken, numbers_of};
ghost use Rattle.log_halves.specs.Numbers.{TellsLater};
ghost use Rattle.log_halves.specs.Moves.{WasEmpty, WasFull};
ghost use Rattle.log_halves.specs.Ends.{IsFlushedTo, HasNoneAbove};
ghost use Rattle.log_halves.specs.Steps.{RollsFile, FlushesFamily};
ghost use Rattle.log_halves.specs.Counts.{flushed_by, rolled_by};

use crate::chain::FrameChain;
use crate::committer::DeviceHalf;
use crate::committing::Commit;
use crate::consumer::ConsumerHalf;
use crate::item::Item;
use crate::moving::Moves;
use crate::name::ServiceNaming;
use crate::starting::Written;
use append_ring::Ring;
use disk_images::Disk;
use log_device::{DeviceFlush, RollRefusal, Rolled};
use std::alloc::Global;
use std::sync::Wait;
use std::thread;

/// How many items a roll and a flush move at least, where there are so many.
const MOST: u64 = 1024;

impl<N: ServiceNaming> ConsumerHalf<N> {
    /// Moves items until the ring was empty at one moment, or 1,024 were moved. A chain that they don't fit is committed, and the moves go
    /// on. True where the device broke.
    pub(crate) fn move_all<D: Disk, R: Wait>(
        &mut self,
        rt: &R,
        ring: &Ring<Item>,
        chain_ring: &Ring<FrameChain>,
        committer: &mut DeviceHalf<D, N>,
    ) -> bool
        requires rings { (ring.now.id ≡ N.ring) × (chain_ring.now.id ≡ N.chain_ring) }
        requires unbroken { IsBroken committer.old.device → ⊥ }
        ensures failed { IsTrue result → IsBroken committer.new.device }
        ensures unbroken { IsFalse result → IsBroken committer.new.device → ⊥ }
        ensures moved { IsFalse result → WasEmpty (view self.new.consumer.pass)
            ⊎ (length (view self.old.consumer.pass).popped + 1023 ≤ length (view self.new.consumer.pass).popped) }
        ensures later { TellsLater committer.old.regions committer.old.device committer.new.regions committer.new.device }
        ensures same { committer.new.regions ≡ committer.old.regions }
    {
        let mut moved = 0;
        for _move in rt.forever() {
            match self.move_items(rt, ring) {
                Moves::Empty => return false,
                Moves::Moved(count) => {
                    moved += count;
                    if moved >= MOST {
                        return false;
                    }
                }
                Moves::StageFull => {
                    if self.drain(rt, chain_ring, committer) {
                        return true;
                    }
                }
            }
        }
        unreachable!()
    }

    /// Commits the chains in the ring of chains until it was empty at one moment, the own chain among them. True where the device broke.
    pub(crate) fn drain<D: Disk, R: Wait>(
        &mut self,
        rt: &R,
        chain_ring: &Ring<FrameChain>,
        committer: &mut DeviceHalf<D, N>,
    ) -> bool
        requires chain_ring { chain_ring.now.id ≡ N.chain_ring }
        requires unbroken { IsBroken committer.old.device → ⊥ }
        ensures failed { IsTrue result → IsBroken committer.new.device }
        ensures unbroken { IsFalse result → IsBroken committer.new.device → ⊥ }
        ensures done { IsFalse result → (self.new.chain ≡ []) × WasFull 0 (view committer.new.consumer.pass) }
        ensures later { TellsLater committer.old.regions committer.old.device committer.new.regions committer.new.device }
        ensures same { (committer.new.regions ≡ committer.old.regions) × (self.new.held ≡ self.old.held)
            × (view self.new.consumer.pass ≡ view self.old.consumer.pass) }
    {
        for _chain in rt.forever() {
            self.push_chain(rt, chain_ring);
            match committer.commit_one(rt, chain_ring) {
                Commit::Committed(_) => {}
                Commit::Clean => {
                    if self.chain.len() == 0 {
                        return false;
                    }
                }
                Commit::WriteFault => return true,
            }
        }
        unreachable!()
    }

    /// Moves items and commits chains until the region's synced number is at or above `upto`. True where the device broke.
    pub(crate) fn move_up_to<D: Disk, R: Wait>(
        &mut self,
        rt: &R,
        ring: &Ring<Item>,
        chain_ring: &Ring<FrameChain>,
        committer: &mut DeviceHalf<D, N>,
        region: u32,
        upto: u64,
    ) -> bool
        requires rings { (ring.now.id ≡ N.ring) × (chain_ring.now.id ≡ N.chain_ring) }
        requires unbroken { IsBroken committer.old.device → ⊥ }
        requires region { region ≤ 64 }
        ensures failed { IsTrue result → IsBroken committer.new.device }
        ensures unbroken { IsFalse result → IsBroken committer.new.device → ⊥ }
        ensures done { IsFalse result → upto ≤ get_or (numbers_of committer.new.device).synced region 0 }
        ensures grows { length (view self.old.consumer.pass).popped ≤ length (view self.new.consumer.pass).popped }
        ensures later { TellsLater committer.old.regions committer.old.device committer.new.regions committer.new.device }
        ensures same { committer.new.regions ≡ committer.old.regions }
    {
        for _turn in rt.forever() {
            if committer.synced(region) >= upto {
                return false;
            }
            let _moves = self.move_items(rt, ring);
            self.push_chain(rt, chain_ring);
            match committer.commit_one(rt, chain_ring) {
                Commit::Committed(_) => {}
                Commit::Clean => thread::yield_now(),
                Commit::WriteFault => return true,
            }
        }
        unreachable!()
    }

    /// Moves until the ring was empty at one moment or 1,024 items were moved, commits all that was moved, and rolls.
    pub fn roll<D: Disk, R: Wait>(
        &mut self,
        rt: &R,
        alloc: Global,
        rings: (&Ring<Item>, &Ring<FrameChain>),
        committer: &mut DeviceHalf<D, N>,
        written: &mut Written,
    ) -> Result<Rolled, RollRefusal>
        requires rings { (rings.0.now.id ≡ N.ring) × (rings.1.now.id ≡ N.chain_ring) }
        requires unbroken { IsBroken committer.old.device → ⊥ }
        // What it answers is of the file that the half had once all that was moved was committed.
        ensures rolls { (IsBroken committer.new.device → ⊥) → RollsFile D.Disk N.ServiceNaming result committer.new }
        ensures closed { OnOk result ((numbers_of committer.new.device).closed ≡ (numbers_of committer.new.device).synced) }
        ensures nothing { (n : ℕ) → result ≡ Err (RollRefusal.NothingToRoll n)
            → (numbers_of committer.new.device).closed ≡ (numbers_of committer.new.device).synced }
        ensures counted { written.new ≡ rolled_by result written.old }
        ensures broken { IsErrOf result RollRefusal.WriteFault ↔ IsBroken committer.new.device }
        ensures later { TellsLater committer.old.regions committer.old.device committer.new.regions committer.new.device }
        // The chains in the ring were committed until it was empty at one moment, and the own chain with them.
        ensures drained { (IsBroken committer.new.device → ⊥) → (self.new.chain ≡ []) × WasFull 0 (view committer.new.consumer.pass) }
        ensures moved { (IsBroken committer.new.device → ⊥) → WasEmpty (view self.new.consumer.pass)
            ⊎ (length (view self.old.consumer.pass).popped + 1023 ≤ length (view self.new.consumer.pass).popped) }
        ensures same { committer.new.regions ≡ committer.old.regions }
    {
        let (ring, chain_ring) = rings;
        if self.move_all(rt, ring, chain_ring, committer) {
            return Err(RollRefusal::WriteFault);
        }
        if self.drain(rt, chain_ring, committer) {
            return Err(RollRefusal::WriteFault);
        }
        committer.roll(alloc, written)
    }

    /// Moves and commits the region's entries up to a number, moves on until the ring was empty at one moment or 1,024 items were moved, commits
    /// all that was moved, and flushes the family of the region.
    pub fn flush<D: Disk, R: Wait>(
        &mut self,
        rt: &R,
        alloc: Global,
        rings: (&Ring<Item>, &Ring<FrameChain>),
        committer: &mut DeviceHalf<D, N>,
        region: u32,
        upto: u64,
        family: Option<&[u8]>,
        written: &mut Written,
    ) -> Result<u64, DeviceFlush>
        requires rings { (rings.0.now.id ≡ N.ring) × (rings.1.now.id ≡ N.chain_ring) }
        requires unbroken { IsBroken committer.old.device → ⊥ }
        requires region { (0 < region) × (region ≤ committer.old.regions) }
        requires family { IfSome family (λ f. (1 ≤ length f.now) × (length f.now ≤ 127)) }
        ensures flushed { IfOk result
            (λ n. (upto ≤ n) × IsFlushedTo region (option_map (λ f. f.now) family.entry) n
            (numbers_of committer.old.device) (numbers_of committer.new.device)) }
        ensures nothing { (n : ℕ) → result ≡ Err (DeviceFlush.Nothing n)
            → (upto ≤ n) × HasNoneAbove region (option_map (λ f. f.now) family.entry) n (numbers_of committer.new.device) }
        // What it answers is of what the half kept once all that was moved was committed.
        ensures flushes { (IsBroken committer.new.device → ⊥)
            → FlushesFamily D.Disk N.ServiceNaming region (option_map (λ f. f.now) family.entry) result committer.new }
        ensures counted { written.new ≡ flushed_by result written.old }
        ensures broken { IsErrOf result DeviceFlush.WriteFault ↔ IsBroken committer.new.device }
        ensures later { TellsLater committer.old.regions committer.old.device committer.new.regions committer.new.device }
        // The chains in the ring were committed until it was empty at one moment, and the own chain with them.
        ensures drained { (IsBroken committer.new.device → ⊥) → (self.new.chain ≡ []) × WasFull 0 (view committer.new.consumer.pass) }
        ensures moved { (IsBroken committer.new.device → ⊥) → WasEmpty (view self.new.consumer.pass)
            ⊎ (length (view self.old.consumer.pass).popped + 1023 ≤ length (view self.new.consumer.pass).popped) }
        ensures same { committer.new.regions ≡ committer.old.regions }
    {
        let (ring, chain_ring) = rings;
        if self.move_up_to(rt, ring, chain_ring, committer, region, upto) {
            return Err(DeviceFlush::WriteFault);
        }
        if self.move_all(rt, ring, chain_ring, committer) {
            return Err(DeviceFlush::WriteFault);
        }
        if self.drain(rt, chain_ring, committer) {
            return Err(DeviceFlush::WriteFault);
        }
        committer.flush(alloc, region, family, written)
    }
}
