//! The half of a call that ships, in the caller's thread.

ghost use Rattle.std.specs.Prelude.{◌≡◌, ◌++◌, List, true};
ghost use Rattle.crossbeam_queue.specs.Passes.{view};
ghost use Rattle.chronicle_model.specs.Chronicle.{Placed};
ghost use Rattle.ship_queue.specs.Halves.{FitsItsLog, HasShipped, ShipsOn, given_by};

use crate::gate::Gate;
use crate::peer::Peer;
use crate::reading::Reading;
use crate::sending::{Count, ship_list};
use append_ring::{ConsumerPass, Ring};
use std::sync::Wait;

/// The half that ships, beside its peer.
#[derive(Drop)]
pub(crate) struct ShippingHalf {
    pub(crate) consumer: ConsumerPass<Reading>,
    pub(crate) count: Count,
    /// Whether the peer has failed: what is popped from then on is dropped.
    pub(crate) has_failed: bool,
}

/// Ships what a reading gave, unless the peer has failed before, and tells whether it has failed now.
fn ship_reading<P: Peer>(
    peer: &mut P,
    count: &mut Count,
    has_failed: bool,
    reading: &Reading,
) -> bool
    requires whole { FitsItsLog reading.now }
    ensures still { has_failed ≡ true → result ≡ true }
    ensures ships { (first : P) (xs : List Placed)
        → HasShipped P.has P.torn P.stays P.faults first peer.old count.old has_failed xs
        → HasShipped P.has P.torn P.stays P.faults first peer.new count.new result (xs ++ given_by reading.now) }
{
    if has_failed {
        return true;
    }
    match ship_list(peer, count, reading.at, reading.entries.as_slice()) {
        Ok(()) => false,
        Err(_) => true,
    }
}

impl ShippingHalf {
    /// Ships what the oldest reading in the ring gave. False where the ring was empty.
    pub(crate) fn ship_next<R: Wait, P: Peer>(
        &mut self,
        rt: &R,
        ring: &Ring<Reading>,
        gate: &Gate,
        peer: &mut P,
    ) -> bool
        requires ring { self.old.consumer.pass.table_id ≡ ring.now.id }
        ensures ring { self.new.consumer.pass.table_id ≡ ring.now.id }
        ensures regions { (view self.new.consumer.pass).lasts ≡ (view self.old.consumer.pass).lasts }
        ensures still { self.old.has_failed ≡ true → self.new.has_failed ≡ true }
        ensures ships { ShipsOn P.has P.torn P.stays P.faults peer.old peer.new self.old.count self.new.count self.old.has_failed self.new.has_failed
            (view self.old.consumer.pass).popped (view self.new.consumer.pass).popped }
    {
        let Some(reading) = ring.pop(rt, &mut self.consumer) else {
            return false;
        };
        gate.tell();
        self.has_failed = ship_reading(peer, &mut self.count, self.has_failed, &reading);
        true
    }

    /// Whether its turn goes on after a pop. Where the ring was empty it sleeps before, unless the worker's turn was over then.
    fn goes_on<R: Wait>(
        &self,
        rt: &R,
        gate: &Gate,
        moves: u64,
        is_over: bool,
        has_shipped: bool,
    ) -> bool {
        if self.has_failed {
            return false;
        }
        has_shipped || (!is_over && gate.wait_for_reading(rt, moves))
    }

    /// Its turn: ships what it pops, until the worker's turn has ended and the ring is empty, or the peer fails. Where the ring is
    /// empty before that it sleeps.
    pub(crate) fn ship_on<R: Wait, P: Peer>(
        &mut self,
        rt: &R,
        ring: &Ring<Reading>,
        gate: &Gate,
        peer: &mut P,
    )
        requires ring { self.old.consumer.pass.table_id ≡ ring.now.id }
        ensures ring { self.new.consumer.pass.table_id ≡ ring.now.id }
        ensures regions { (view self.new.consumer.pass).lasts ≡ (view self.old.consumer.pass).lasts }
        ensures ships { ShipsOn P.has P.torn P.stays P.faults peer.old peer.new self.old.count self.new.count self.old.has_failed self.new.has_failed
            (view self.old.consumer.pass).popped (view self.new.consumer.pass).popped }
    {
        for _step in rt.forever() {
            let moves = gate.moves();
            let is_over = gate.has_worker_ended();
            let has_shipped = self.ship_next(rt, ring, gate, peer);
            if !self.goes_on(rt, gate, moves, is_over, has_shipped) {
                gate.end_caller(self.has_failed);
                return;
            }
        }
        unreachable!()
    }
}
