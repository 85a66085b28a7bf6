//! What is left at the close is moved and committed; of a broken log it is popped and let go.
ghost use Rattle.std.specs.Prelude.{◌≡◌, length, IsTrue};
ghost use Rattle.crossbeam_queue.specs.Passes.{view};
ghost use Rattle.append_ring.specs.Parts.{EachThere, IsDrained};
ghost use Rattle.log_device.specs.Whole.{IsBroken};
ghost use Rattle.log_halves.specs.Numbers.{TellsLater};
ghost use Rattle.log_halves.specs.Moves.{bench_of, IsAllMoved};

use crate::chain::FrameChain;
use crate::committer::DeviceHalf;
use crate::consumer::ConsumerHalf;
use crate::item::Item;
use crate::name::ServiceNaming;
use append_ring::{Ring, RingKeys};
use disk_images::Disk;
use std::sync::Wait;

impl<N: ServiceNaming> ConsumerHalf<N> {
    /// Whether all that was pushed under these passes was popped and handed over.
    fn is_done(&self, ring: &Ring<Item>, passes: &RingKeys<Item>) -> bool
        requires there { EachThere (λ p. p.pass.table_id ≡ ring.now.id) passes.now }
        requires all { length passes.now ≡ length N.lasts }
        ensures { IsTrue result → IsAllMoved (bench_of self.now) passes.now }
    {
        if self.held.is_some() || self.chain.len() > 0 {
            return false;
        }
        ring.drained(passes, &self.consumer)
    }
}

impl<D: Disk, N: ServiceNaming> DeviceHalf<D, N> {
    /// Whether all that was pushed under these passes was popped.
    fn is_done(&self, chain_ring: &Ring<FrameChain>, passes: &RingKeys<FrameChain>) -> bool
        requires there { EachThere (λ p. p.pass.table_id ≡ chain_ring.now.id) passes.now }
        requires all { length passes.now ≡ length N.lasts }
        ensures { IsTrue result → EachThere (IsDrained (λ _. 1) (view self.now.consumer.pass).popped) passes.now }
    {
        chain_ring.drained(passes, &self.consumer)
    }

    /// Pops a chain and lets it go, where the device is broken.
    fn drop_one<R: Wait>(&mut self, rt: &R, chain_ring: &Ring<FrameChain>)
        requires chain_ring { chain_ring.now.id ≡ N.chain_ring }
        requires broken { IsBroken self.old.device }
        ensures { (self.new.device ≡ self.old.device) × (self.new.regions ≡ self.old.regions) }
    {
        let Some(chain) = chain_ring.pop(rt, &mut self.consumer) else {
            return;
        };
        drop(chain);
    }

    /// Pops a chain, and commits it unless the device is broken.
    fn settle_one<R: Wait>(&mut self, rt: &R, chain_ring: &Ring<FrameChain>)
        requires chain_ring { chain_ring.now.id ≡ N.chain_ring }
        ensures later { TellsLater self.old.regions self.old.device self.new.regions self.new.device }
        ensures broken { IsBroken self.old.device → IsBroken self.new.device }
        ensures same { self.new.regions ≡ self.old.regions }
    {
        if self.device.broken() {
            self.drop_one(rt, chain_ring);
        } else {
            let _commit = self.commit_one(rt, chain_ring);
        }
    }
}

/// Moves and hands over all items, and settles chains meanwhile.
pub fn settle_items<D: Disk, N: ServiceNaming, R: Wait>(
    rt: &R,
    ring: &Ring<Item>,
    passes: &RingKeys<Item>,
    chain_ring: &Ring<FrameChain>,
    mover: &mut ConsumerHalf<N>,
    committer: &mut DeviceHalf<D, N>,
)
    requires rings { (ring.now.id ≡ N.ring) × (chain_ring.now.id ≡ N.chain_ring) }
    requires there { EachThere (λ p. p.pass.table_id ≡ ring.now.id) passes.now }
    requires all { length passes.now ≡ length N.lasts }
    ensures moved { IsAllMoved (bench_of mover.new) passes.now }
    ensures later { TellsLater committer.old.regions committer.old.device committer.new.regions committer.new.device }
    ensures broken { IsBroken committer.old.device → IsBroken committer.new.device }
    ensures same { committer.new.regions ≡ committer.old.regions }
{
    for _turn in rt.forever() {
        if mover.is_done(ring, passes) {
            return;
        }
        let _moves = mover.move_items(rt, ring);
        mover.push_chain(rt, chain_ring);
        committer.settle_one(rt, chain_ring);
    }
    unreachable!()
}

/// Settles all chains.
pub fn settle_chains<D: Disk, N: ServiceNaming, R: Wait>(
    rt: &R,
    chain_ring: &Ring<FrameChain>,
    passes: &RingKeys<FrameChain>,
    committer: &mut DeviceHalf<D, N>,
)
    requires chain_ring { chain_ring.now.id ≡ N.chain_ring }
    requires there { EachThere (λ p. p.pass.table_id ≡ chain_ring.now.id) passes.now }
    requires all { length passes.now ≡ length N.lasts }
    ensures drained { EachThere (IsDrained (λ _. 1) (view committer.new.consumer.pass).popped) passes.now }
    ensures later { TellsLater committer.old.regions committer.old.device committer.new.regions committer.new.device }
    ensures broken { IsBroken committer.old.device → IsBroken committer.new.device }
    ensures same { committer.new.regions ≡ committer.old.regions }
{
    for _turn in rt.forever() {
        if committer.is_done(chain_ring, passes) {
            return;
        }
        committer.settle_one(rt, chain_ring);
    }
    unreachable!()
}
