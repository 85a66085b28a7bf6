//! The work of a consumer's turn.
ghost use Rattle.std.specs.Prelude.{◌≡◌, ◌≤◌, ◌⊎◌, ℕ, List, [], ◌∷◌, ◌++◌, ◌||◌, length, false, Some, None, IsTrue, IsFalse, IsSome};
ghost use Rattle.crossbeam_queue.specs.Passes.{view};
ghost use Rattle.log_halves.specs.declared.item.Item.{Item as TheItem};
ghost use Rattle.log_halves.specs.Items.{appended, held_in, is_sync};
ghost use Rattle.log_halves.specs.Moves.{bench_of, HasMoved, IsTooLong, WasEmpty};

use crate::chain::{FrameChain, len_of};
use crate::consumer::ConsumerHalf;
use crate::item::Item;
use crate::name::ServiceNaming;
use append_ring::Ring;
use std::sync::Wait;

/// The most items that one turn moves.
pub(crate) const MOST: u64 = 64;

/// What a consumer's turn moved.
#[derive(Clone, Copy, Debug, PartialEq, Eq)]
pub enum Moves {
    /// So many items, at most 64.
    Moved(u64),
    /// The ring was empty.
    Empty,
    /// The next item doesn't fit the chain.
    StageFull,
}

impl<N: ServiceNaming> ConsumerHalf<N> {
    /// Takes an item out of the ring, where none is held. False where the ring was empty.
    fn refill<R: Wait>(&mut self, rt: &R, ring: &Ring<Item>) -> bool
        requires { ring.now.id ≡ N.ring }
        ensures there { IsTrue result → IsSome self.new.held }
        ensures popped { IsTrue result → (more : List TheItem)
            × ((view self.new.consumer.pass).popped ≡ (view self.old.consumer.pass).popped ++ more) × (held_in self.new.held ≡ held_in self.old.held ++ more) }
        ensures empty { IsFalse result → (self.old.held ≡ None) × (self.new.held ≡ None)
            × ((view self.new.consumer.pass) ≡ (view self.old.consumer.pass)) × WasEmpty (view self.old.consumer.pass) }
        ensures same { (self.new.chain ≡ self.old.chain) × (self.new.asked ≡ self.old.asked) × (view self.new.chain_key.pass ≡ view self.old.chain_key.pass) }
    {
        if self.held.is_some() {
            return true;
        }
        let Some(item) = ring.pop(rt, &mut self.consumer) else {
            return false;
        };
        self.held = Some(item);
        true
    }

    /// Moves the held item, unless it doesn't fit.
    fn put(&mut self) -> bool
        requires { IsSome self.old.held }
        ensures moved { IsTrue result → (x : TheItem) × (self.old.held ≡ Some x) × (self.new.held ≡ None)
            × (self.new.chain ≡ self.old.chain ++ appended (x ∷ [])) × (self.new.asked ≡ (self.old.asked || is_sync x)) }
        ensures full { IsFalse result → (self.new.held ≡ self.old.held) × (self.new.chain ≡ self.old.chain)
            × (self.new.asked ≡ self.old.asked) × IsTooLong (bench_of self.new) }
        ensures same { ((view self.new.consumer.pass) ≡ (view self.old.consumer.pass)) × (view self.new.chain_key.pass ≡ view self.old.chain_key.pass) }
    {
        let Some(item) = self.held.take() else {
            unreachable!()
        };
        match item {
            Item::Sync {
                region: _,
                number: _,
            } => {
                self.asked = true;
                self.requests = self.requests.wrapping_add(1);
                true
            }
            Item::Append(truck) => {
                if self.chain.is_full_for(len_of(&truck)) {
                    self.held = Some(Item::Append(truck));
                    false
                } else {
                    self.chain.push(truck);
                    true
                }
            }
        }
    }

    /// Moves up to 64 items: first the held one, then popped ones. An append goes into the chain, and a sync request is noted.
    pub fn move_items<R: Wait>(&mut self, rt: &R, ring: &Ring<Item>) -> Moves
        requires { ring.now.id ≡ N.ring }
        ensures moved { (n : ℕ) → result ≡ Moves.Moved n → (1 ≤ n) × (n ≤ 64)
            × ((xs : List TheItem) × (length xs ≡ n) × HasMoved (bench_of self.old) (bench_of self.new) xs) }
        ensures empty { result ≡ Moves.Empty → HasMoved (bench_of self.old) (bench_of self.new) [] × WasEmpty (view self.new.consumer.pass) }
        ensures full { result ≡ Moves.StageFull → HasMoved (bench_of self.old) (bench_of self.new) [] × IsTooLong (bench_of self.new) }
        ensures grows { length (view self.old.consumer.pass).popped ≤ length (view self.new.consumer.pass).popped }
    {
        for moved in 0..MOST {
            if !self.refill(rt, ring) {
                return if moved == 0 {
                    Moves::Empty
                } else {
                    Moves::Moved(moved)
                };
            }
            if !self.put() {
                return if moved == 0 {
                    Moves::StageFull
                } else {
                    Moves::Moved(moved)
                };
            }
        }
        Moves::Moved(MOST)
    }
}
