//! How a ring is closed.
ghost use Rattle.std.specs.Prelude.{◌≡◌, ◌↔◌, ◌-◌, ◌^◌, ◌<◌, ◌≤◌, IsTrue, length};
ghost use Rattle.crossbeam_queue.specs.Passes.{view};
ghost use Rattle.append_ring.specs.Rules.{of};
ghost use Rattle.append_ring.specs.Parts.{EachThere, IsDrained, IsCounted, IsEqual};

use crate::item::OfRegion;
use crate::keys::RingKeys;
use crate::law::{Compare, Total};
use crate::pass::{ConsumerPass, RingKey};
use crate::ring::Ring;

// Whether as many items were popped of the region as were pushed, and fewer than 2^64 - 1.
fn is_drained<T: OfRegion>(consumer: &ConsumerPass<T>, pass: &RingKey<T>) -> bool
    requires { pass.now.region ≤ length (view consumer.now.pass).lasts }
    ensures { IsTrue result ↔ IsDrained T.place (view consumer.now.pass).popped pass.now }
{
    let count = consumer.counts[pass.region as usize - 1];
    count == pass.count && count < u64::MAX
}

impl<T: OfRegion> Ring<T> {
    /// Whether as many items were popped of each region as were pushed under its pass, and fewer than 2^64 - 1.
    pub fn drained(&self, passes: &RingKeys<T>, consumer: &ConsumerPass<T>) -> bool
        requires there { EachThere (λ p. p.pass.table_id ≡ self.now.id) passes.now }
        requires all { length passes.now ≡ length (view consumer.now.pass).lasts }
        ensures { IsTrue result ↔ EachThere (IsDrained T.place (view consumer.now.pass).popped) passes.now }
    {
        for place in passes.places.iter() {
            let Some(pass) = place else { unreachable!() };
            if !is_drained(consumer, pass) {
                return false;
            }
        }
        true
    }

    // Where as many items were popped of a region as were pushed, what was popped is what was pushed.
    fn settle(&self, consumer: &mut ConsumerPass<T>, pass: RingKey<T>)
        requires ring { (consumer.old.pass.table_id ≡ self.now.id) × (pass.pass.table_id ≡ self.now.id) }
        requires count { length (of T.place pass.region (view consumer.old.pass).popped) ≡ length (view pass.pass).pushed }
        ensures same { (consumer.new.pass.table_id ≡ consumer.old.pass.table_id) × ((view consumer.new.pass).popped ≡ (view consumer.old.pass).popped) }
        ensures equal { of T.place pass.region (view consumer.old.pass).popped ≡ (view pass.pass).pushed }
    {
        self.queue
            .absorb::<Compare>(&mut consumer.pass, pass.into_pass());
        self.queue.learn_as::<Total<T>>(&mut consumer.pass);
    }
}

impl<T: OfRegion + Drop> Ring<T> {
    /// Closes the ring, once as many items were popped of each region as were pushed under its pass. What was popped of a region is
    /// then what was pushed. Who closes a ring pops until `drained` answers true.
    pub fn close(self, passes: RingKeys<T>, mut consumer: ConsumerPass<T>)
        requires ring { consumer.pass.table_id ≡ self.id }
        requires there { EachThere (λ p. p.pass.table_id ≡ self.id) passes }
        requires all { length passes ≡ length (view consumer.pass).lasts }
        requires counts { EachThere (IsCounted T.place (view consumer.pass).popped) passes }
        ensures equal { EachThere (IsEqual T.place (view consumer.pass).popped) passes }
    {
        let RingKeys { mut places } = passes;
        while let Some(place) = places.pop() {
            let Some(pass) = place else { unreachable!() };
            self.settle(&mut consumer, pass);
        }
    }
}
