//! The steps of a ring.
ghost use Rattle.std.specs.Prelude.{◌≡◌, [], ◌∷◌, ◌++◌, MatchResult, MatchOption};
ghost use Rattle.crossbeam_queue.specs.Fifo.{Held};
ghost use Rattle.crossbeam_queue.specs.Passes.{view};
ghost use Rattle.append_ring.specs.Rules.{Follows, Possible, HasPopped, HasPushed};
ghost use Rattle.append_ring.specs.Parts.{last_pushed};

use crate::item::OfRegion;
use crate::law::{Pop, Push};
use crate::pass::{ConsumerPass, RingKey};
use crate::ring::{Full, Ring};
use std::sync::Wait;

impl<T: OfRegion> Ring<T> {
    /// Pushes an item under the pass of its region. A drawn number has to be one above the last drawn one pushed under the pass.
    /// The item comes back only where the ring held its capacity at one moment of the call.
    pub fn push<R: Wait>(&self, rt: &R, pass: &mut RingKey<T>, item: T) -> Result<(), Full<T>>
        requires ring { pass.old.pass.table_id ≡ self.now.id }
        requires region { T.place item ≡ pass.old.region }
        requires whole { T.is_whole item }
        requires order { T.in_order (view pass.old.pass).lasts ((view pass.old.pass).pushed ++ item ∷ []) }
        requires follows { Follows T.number (last_pushed T.number pass.old) item }
        ensures same { (pass.new.pass.table_id ≡ pass.old.pass.table_id) × (pass.new.region ≡ pass.old.region) }
        ensures pushed { MatchResult result (λ _. HasPushed (view pass.old.pass) item (view pass.new.pass))
            (λ full. (full.item ≡ item) × (view pass.new.pass ≡ view pass.old.pass)
            × Held self.now.capacity (Possible T.place T.number T.is_whole T.in_order (view pass.old.pass))) }
    {
        match self.queue.push_as::<Push<T>, R>(rt, &mut pass.pass, item) {
            Ok(()) => {
                pass.count = pass.count.saturating_add(1);
                Ok(())
            }
            Err(item) => Err(Full { item }),
        }
    }

    /// Pops the oldest item. None only where the ring was empty at one moment of the call.
    pub fn pop<R: Wait>(&self, rt: &R, pass: &mut ConsumerPass<T>) -> Option<T>
        requires ring { pass.old.pass.table_id ≡ self.now.id }
        ensures same { pass.new.pass.table_id ≡ pass.old.pass.table_id }
        ensures popped { MatchOption result ((view pass.new.pass ≡ view pass.old.pass)
            × Held 0 (Possible T.place T.number T.is_whole T.in_order (view pass.old.pass)))
            (λ item. HasPopped T.place T.number T.is_whole T.in_order (view pass.old.pass) item (view pass.new.pass)) }
    {
        let item = self.queue.pop_as::<Pop<T>, R>(rt, &mut pass.pass)?;
        let at = item.region() as usize - 1;
        let count = pass.counts[at];
        pass.counts[at] = count.saturating_add(1);
        Some(item)
    }
}
