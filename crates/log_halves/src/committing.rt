//! The work of a device's turn.
ghost use Rattle.std.specs.Prelude.{◌≡◌, ◌≤◌, ◌+◌, ◌++◌, IsTrue, ℕ, List, [], ◌∷◌, length};
ghost use Rattle.crossbeam_queue.specs.Passes.{view};
ghost use Rattle.disk_images.specs.Calls.{Rose};
ghost use Rattle.log_trucks.specs.Held.{Held};
ghost use Rattle.log_device.specs.Whole.{IsBroken, disk_of};
ghost use Rattle.log_halves.specs.Chains.{AreInOrder};
ghost use Rattle.log_halves.specs.Numbers.{TellsLater};
ghost use Rattle.log_halves.specs.Moves.{WasFull};

use crate::chain::FrameChain;
use crate::committer::DeviceHalf;
use crate::name::ServiceNaming;
use crate::staging::commit_chain;
use append_ring::Ring;
use disk_images::Disk;
use log_device::WriteFault;
use std::sync::Wait;

/// What a device's turn committed.
#[derive(Clone, Copy, Debug, PartialEq, Eq)]
pub enum Commit {
    /// A chain of so many entries.
    Committed(u64),
    /// There was no chain.
    Clean,
    /// A disk call failed.
    WriteFault,
}

impl<D: Disk, N: ServiceNaming> DeviceHalf<D, N> {
    /// Pops a chain, stages it and commits it. The disk's clock rises by four at most, however many entries the chain has.
    pub fn commit_one<R: Wait>(&mut self, rt: &R, chain_ring: &Ring<FrameChain>) -> Commit
        requires chain_ring { chain_ring.now.id ≡ N.chain_ring }
        requires unbroken { IsBroken self.old.device → ⊥ }

        ensures committed { (n : ℕ) → result ≡ Commit.Committed n → (chain : List Held)
            × ((view self.new.consumer.pass).popped ≡ (view self.old.consumer.pass).popped ++ chain ∷ []) × (n ≡ length chain)
            × (IsBroken self.new.device → ⊥) }
        ensures clean { result ≡ Commit.Clean → (view self.new.consumer.pass ≡ view self.old.consumer.pass)
            × (self.new.device ≡ self.old.device) × WasFull 0 (view self.old.consumer.pass) }
        ensures fault { result ≡ Commit.WriteFault → IsBroken self.new.device × Rose (D.faults (disk_of self.old.device)) (D.faults (disk_of self.new.device)) }
        ensures later { TellsLater self.old.regions self.old.device self.new.regions self.new.device }
        ensures same { self.new.regions ≡ self.old.regions }
        ensures clock { IsTrue D.told → (D.view (disk_of self.new.device)).clock ≤ (D.view (disk_of self.old.device)).clock + 4 }
        ensures some { (n : ℕ) → result ≡ Commit.Committed n → 1 ≤ n }
        ensures ordered { (n : ℕ) → result ≡ Commit.Committed n → AreInOrder N.lasts (view self.new.consumer.pass).popped }
        ensures popped { (result ≡ Commit.Clean → ⊥) → (chain : List Held)
            × ((view self.new.consumer.pass).popped ≡ (view self.old.consumer.pass).popped ++ chain ∷ []) × (1 ≤ length chain) }
    {
        let Some(chain) = chain_ring.pop(rt, &mut self.consumer) else {
            return Commit::Clean;
        };
        match commit_chain(&mut self.device, chain) {
            Ok(count) => Commit::Committed(count),
            Err(WriteFault) => Commit::WriteFault,
        }
    }
}
