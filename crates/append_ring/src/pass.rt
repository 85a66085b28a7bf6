//! The keys of a ring, and the consumer's pass.
ghost use Rattle.std.specs.Prelude.{◌≡◌, ℕ, ◌+◌, ◌-◌, ◌^◌, ◌<◌, ◌≤◌, min, slice_index, true, [], length};
ghost use Rattle.crossbeam_queue.specs.Passes.{view};
ghost use Rattle.append_ring.specs.Rules.{of};

use crate::item::OfRegion;
use crate::knows::Knows;
use crossbeam_queue::Pass;

/// The right to push items of one region.
pub struct RingKey<T> {
    /// The queue's own pass, whose view has the list of what was pushed.
    pub pass: Pass<T, Knows<T>>,
    /// The region, from 1 on.
    pub region: u32,
    // How many items were pushed, or 2^64 - 1 where there are more.
    pub(crate) count: u64,
    ghost counted: { count ≡ min (length (view pass).pushed) (2 ^ 64 - 1) },
    ghost home: { pass.me.1 ≡ [] },
    ghost of: { ((view pass).region ≡ region) × (0 < region) × (region ≤ length (view pass).lasts) },
}

impl<T> Drop for RingKey<T> {
    fn drop(self) {
        let RingKey {
            pass: _,
            region: _,
            count: _,
        } = self;
    }
}

impl<T> RingKey<T> {
    pub(crate) fn into_pass(self) -> Pass<T, Knows<T>>
        ensures { result ≡ self.pass }
    {
        let RingKey {
            pass,
            region: _,
            count: _,
        } = self;
        pass
    }
}

/// The right to pop.
pub struct ConsumerPass<T: OfRegion> {
    /// The queue's own pass, whose view has the list of what was popped.
    pub pass: Pass<T, Knows<T>>,
    // How many items were popped of each region, or 2^64 - 1 where there are more.
    pub(crate) counts: Vec<u64>,
    ghost regions: { length counts.items ≡ length (view pass).lasts },
    ghost counted: { (i : ℕ) → i < length counts.items → slice_index counts.items i ≡ min (length (of T.place (i + 1) (view pass).popped)) (2 ^ 64 - 1) },
    ghost home: { pass.me.1 ≡ [] },
    ghost pops: { (view pass).pops ≡ true },
}

impl<T: OfRegion> Drop for ConsumerPass<T> {
    fn drop(self) {
        let ConsumerPass { pass: _, counts: _ } = self;
    }
}
