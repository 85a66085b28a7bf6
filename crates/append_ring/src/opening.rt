//! How a ring is made.
ghost use Rattle.std.specs.Prelude.{◌≡◌, ◌+◌, ◌<◌, ◌≤◌, [], length, true, false, IfOk};
ghost use Rattle.crossbeam_queue.specs.Passes.{view, IsPassOf};
ghost use Rattle.append_ring.specs.Rules.{knows, new_pass};
ghost use Rattle.append_ring.specs.Parts.{AreNew};

use crate::item::OfRegion;
use crate::keys::RingKeys;
use crate::knows::Knows;
use crate::law::{Base, Bases, NextRegion};
use crate::memory::NoMemory;
use crate::pass::{ConsumerPass, RingKey};
use crate::ring::{Queue, Ring};
use crossbeam_queue::Pass;
use std::alloc::Global;
use std::marker::Brand;

const CAPACITY: u32 = 1024;

/// A ring, the passes of its regions, and the consumer's pass.
#[derive(Drop)]
pub struct RingParts<T: OfRegion> {
    pub ring: Ring<T>,
    pub passes: RingKeys<T>,
    pub consumer: ConsumerPass<T>,
}

// Lets the first pass know the bases.
fn opened<T: OfRegion, B: Bases>(queue: &Queue<T>, pass: &mut Pass<T, Knows<T>>, lasts: &[u64])
    requires bases { lasts.now ≡ B.lasts }
    requires pass { IsPassOf queue.now pass.old × (view pass.old ≡ new_pass) }
    ensures { IsPassOf queue.now pass.new × (view pass.new ≡ knows 0 true 0 lasts.now [] []) }
{
    // The contract alone uses it.
    let _ = lasts;
    let spare = queue.another::<Base<B>>(pass);
    drop(spare);
}

// The pass of the next region.
fn next_pass<T: OfRegion>(
    queue: &Queue<T>,
    pass: &mut Pass<T, Knows<T>>,
    lasts: &[u64],
    made: u32,
) -> RingKey<T>
    requires pass { IsPassOf queue.now pass.old × (view pass.old ≡ knows 0 true made lasts.now [] []) }
    requires room { (made < length lasts.now) × (length lasts.now ≤ 64) }
    ensures pass { IsPassOf queue.now pass.new × (view pass.new ≡ knows 0 true (made + 1) lasts.now [] []) }
    ensures new { (result.pass.table_id ≡ queue.now.table.shared.table_id) × (result.region ≡ made + 1)
        × (view result.pass ≡ knows (made + 1) false 0 lasts.now [] []) }
{
    // The contract alone uses it.
    let _ = lasts;
    let region = queue.another::<NextRegion>(pass);
    RingKey {
        pass: region,
        region: made + 1,
        count: 0,
    }
}

impl<T: OfRegion> Ring<T> {
    /// A ring of 1,024 places. The regions are 1 to the slice's length, and `lasts` has for each the number before its first drawn one.
    pub fn new(alloc: Global, lasts: &[u64]) -> Result<RingParts<T>, NoMemory>
        requires regions { (0 < length lasts.now) × (length lasts.now ≤ 64) }
        ensures ring { IfOk result (λ parts. parts.ring.capacity ≡ 1024) }
        ensures consumer { IfOk result
            (λ parts. (parts.consumer.pass.table_id ≡ parts.ring.id)
            × (view parts.consumer.pass ≡ knows 0 true (length lasts.now) lasts.now [] [])) }
        ensures passes { IfOk result (λ parts. (length parts.passes ≡ length lasts.now) × AreNew parts.ring.id lasts.now 0 parts.passes) }
    {
        Ring::of_capacity(alloc, lasts, CAPACITY)
    }

    /// The same with `capacity` places, at most 1,024.
    pub fn of_capacity(
        alloc: Global,
        lasts: &[u64],
        capacity: u32,
    ) -> Result<RingParts<T>, NoMemory>
        requires regions { (0 < length lasts.now) × (length lasts.now ≤ 64) }
        requires capacity { (0 < capacity) × (capacity ≤ 1024) }
        ensures ring { IfOk result (λ parts. parts.ring.capacity ≡ capacity) }
        ensures consumer { IfOk result
            (λ parts. (parts.consumer.pass.table_id ≡ parts.ring.id)
            × (view parts.consumer.pass ≡ knows 0 true (length lasts.now) lasts.now [] [])) }
        ensures passes { IfOk result (λ parts. (length parts.passes ≡ length lasts.now) × AreNew parts.ring.id lasts.now 0 parts.passes) }
    {
        let counts = Vec::from_elem(alloc, 0, lasts.len())?;
        let mut places = Vec::with_capacity(alloc, lasts.len())?;
        let (queue, mut pass) = Queue::<T>::ruled(alloc, capacity as usize)?;
        opened::<T, Brand>(&queue, &mut pass, lasts);
        let count = lasts.len() as u32;
        for made in 0..count {
            places.push_reserved(Some(next_pass(&queue, &mut pass, lasts, made)));
        }
        Ok(RingParts {
            ring: Ring { queue },
            passes: RingKeys { places },
            consumer: ConsumerPass { pass, counts },
        })
    }
}
