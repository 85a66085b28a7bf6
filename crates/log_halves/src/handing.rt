//! How the consumer's half hands its chain over.
ghost use Rattle.std.specs.Prelude.{◌≡◌, ◌⊎◌, [], false, None};
ghost use Rattle.crossbeam_queue.specs.Passes.{view};
ghost use Rattle.log_halves.specs.Moves.{bench_of, HasHanded, WasFull};

use crate::chain::FrameChain;
use crate::consumer::ConsumerHalf;
use crate::item::Item;
use crate::moving::{MOST, Moves};
use crate::name::ServiceNaming;
use append_ring::{Full, Ring};
use std::mem;
use std::sync::Wait;

/// In how many moves of 64 items the ring is emptied.
const MOVES: u64 = 16;

impl<N: ServiceNaming> ConsumerHalf<N> {
    /// Pushes the chain into the ring of chains, unless it has no truck or that ring is full. It takes no memory.
    pub(crate) fn push_chain<R: Wait>(&mut self, rt: &R, chain_ring: &Ring<FrameChain>)
        requires chain_ring { chain_ring.now.id ≡ N.chain_ring }
        ensures handed { HasHanded chain_ring.now.capacity (view self.old.chain_key.pass) (bench_of self.old) (bench_of self.new) }
        ensures same { view self.new.consumer.pass ≡ view self.old.consumer.pass }
    {
        if self.chain.len() == 0 {
            return;
        }
        let chain = mem::replace(&mut self.chain, FrameChain::new());
        match chain_ring.push(rt, &mut self.chain_key, chain) {
            Ok(()) => self.asked = false,
            Err(Full { item }) => self.chain = item,
        }
    }

    /// The same where a sync request was moved since the last hand-over, or an item is held. Then the chain has no truck, or neither is
    /// so, or the ring of chains held its capacity at a moment.
    pub fn hand_over<R: Wait>(&mut self, rt: &R, chain_ring: &Ring<FrameChain>)
        requires chain_ring { chain_ring.now.id ≡ N.chain_ring }
        ensures handed { (self.new.chain ≡ []) ⊎ (((self.new.asked ≡ false) × (self.new.held ≡ None))
            ⊎ WasFull chain_ring.now.capacity (view self.old.chain_key.pass)) }
        ensures same { (view self.new.consumer.pass ≡ view self.old.consumer.pass) × (self.new.held ≡ self.old.held) }
        ensures kept { self.old.asked ≡ false → self.old.held ≡ None → (self.new.chain ≡ self.old.chain)
            × (view self.new.chain_key.pass ≡ view self.old.chain_key.pass) }
    {
        if self.asked || self.held.is_some() {
            self.push_chain(rt, chain_ring);
        }
    }

    /// Moves what is in the ring, as far as it fits the chain, and so all that was pushed before. It ends after 1,024 items, as many as the ring holds.
    pub fn move_pushed<R: Wait>(&mut self, rt: &R, ring: &Ring<Item>)
        requires { ring.now.id ≡ N.ring }
    {
        for _move in 0..MOVES {
            match self.move_items(rt, ring) {
                Moves::Moved(MOST) => {}
                _ => return,
            }
        }
    }

    /// How many sync requests were handed over since this was asked last.
    pub fn take_requests(&mut self) -> u64 {
        if self.asked {
            return 0;
        }
        mem::replace(&mut self.requests, 0)
    }
}
