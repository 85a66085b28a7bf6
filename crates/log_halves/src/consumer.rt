//! The consumer's half: what moves items from the ring into chains.
ghost use Rattle.std.specs.Prelude.{◌≡◌, ◌++◌, [], length, Some};
ghost use Rattle.crossbeam_queue.specs.Passes.{view};
ghost use Rattle.append_ring.specs.Rules.{base_of};
ghost use Rattle.append_ring.specs.Parts.{AreNewAfter};
ghost use Rattle.log_halves.specs.declared.item.Item.TheVariants as items;
ghost use Rattle.log_halves.specs.Items.{appended, held_in};
ghost use Rattle.log_halves.specs.Trucks.{AreSpelled, FollowFrom};
ghost use Rattle.log_halves.specs.Chains.{all_trucks};
ghost use Rattle.log_halves.specs.Props.{spelled_prop, follow_prop};

use crate::chain::FrameChain;
use crate::item::Item;
use crate::name::ServiceNaming;
use append_ring::{ConsumerPass, RingKey, RingKeys};
use log_berth::Ware;
use std::marker::PhantomData;

/// The pass that pops items, the chain that their trucks go into, an item that doesn't fit, and the key that pushes chains.
pub struct ConsumerHalf<N: ServiceNaming> {
    pub(crate) consumer: ConsumerPass<Item>,
    pub(crate) chain: FrameChain,
    pub(crate) held: Option<Item>,
    pub(crate) chain_key: RingKey<FrameChain>,
    // The keys of the ring of chains that are never used, since all chains are of region 1. They lie in a ware, since the service, which
    // threads share, may hold no pass.
    pub(crate) idle: RingKeys<FrameChain>,
    // A sync request was moved since the last hand-over.
    pub(crate) asked: bool,
    // How many were moved since the last hand-over of which the service was told.
    pub(crate) requests: u64,
    pub(crate) of: PhantomData<N>,
    ghost ring: { (consumer.pass.table_id ≡ N.ring) × ((view consumer.pass).lasts ≡ N.lasts) },
    ghost to: { (chain_key.pass.table_id ≡ N.chain_ring) × (chain_key.region ≡ 1) × ((view chain_key.pass).lasts ≡ N.lasts) },
    ghost rest: { ∥ AreNewAfter N.chain_ring N.lasts 0 1 idle ∥₁ × (length idle ≡ length N.lasts) },
    // What was popped is in this order in the chains that were handed over, in the own chain, and held.
    ghost tie: { all_trucks (view chain_key.pass).pushed ++ (chain ++ appended (held_in held)) ≡ appended (view consumer.pass).popped },
    ghost spelled: { AreSpelled (chain ++ appended (held_in held)) } by { spelled_prop (chain ++ appended (held_in held)) },
    ghost alone: { (truck : _) → held ≡ Some (items.Append truck) → truck.value.behind ≡ [] },
    // It all came out of the ring.
    ghost came: { ∥ N.came (view consumer.pass).popped held ∥₁ },
    ghost follow: { FollowFrom N.lasts (appended (view consumer.pass).popped) } by { follow_prop (length N.lasts) (base_of N.lasts) (appended (view consumer.pass).popped) },
}

impl<N: ServiceNaming> Drop for ConsumerHalf<N> {
    fn drop(self) {
        let ConsumerHalf {
            consumer: _,
            chain: _,
            held: _,
            chain_key: _,
            idle: _,
            asked: _,
            requests: _,
            of: _,
        } = self;
    }
}

impl<N: ServiceNaming> Ware for ConsumerHalf<N> {
    ghost use Rattle.std.specs.Prelude.{[], false};

    ghost numbers = { λ _. [] };

    ghost is_broken = { λ _. false };

    fn durable(&self, region: u32) -> u64 {
        let _ = region;
        0
    }

    fn broken(&self) -> bool {
        false
    }
}

impl<N: ServiceNaming> ConsumerHalf<N> {
    /// Its passes. What it has besides is let go.
    pub fn into_passes(
        self,
    ) -> (
        ConsumerPass<Item>,
        RingKey<FrameChain>,
        RingKeys<FrameChain>,
    )
        ensures { (result.0 ≡ self.consumer) × (result.1 ≡ self.chain_key) × (result.2 ≡ self.idle) }
    {
        let ConsumerHalf {
            consumer,
            chain: _,
            held: _,
            chain_key,
            idle,
            asked: _,
            requests: _,
            of: _,
        } = self;
        (consumer, chain_key, idle)
    }
}
