//! The consumer's part of a device's turn.
ghost use Rattle.std.specs.Prelude.{◌≡◌, false, IsTrue, IsFalse};
ghost use Rattle.log_service.specs.Places.{FoundTaken, HadTurn, LastFoundTaken, LastHadTurn};

use crate::service::LogService;
use disk_images::Disk;
use log_berth::LogSeat as BerthSeat;
use log_halves::ServiceNaming;
use std::sync::Wait;
use std::thread;

/// How often a sync turn tries for the consumer's turn.
const TRIES: u32 = 1000;

impl<D: Disk, N: ServiceNaming> LogService<D, N> {
    /// Hands the chain over where a sync request was moved since the last time or an item is held. False where another seat has the consumer's
    /// turn at each of many tries: it has it for a moment only, unless it has lost its processor.
    pub(crate) fn hand_chain<R: Wait>(&self, rt: &R, seat: &mut BerthSeat, moves: bool) -> bool
        requires seat { seat.old.berth ≡ self.now.consumer }
        requires no_turn { seat.old.knows.turn ≡ false }
        ensures seat { (seat.new.berth ≡ seat.old.berth) × (seat.new.knows.turn ≡ false) }
        ensures had { IsTrue result → LastHadTurn seat.old.knows seat.new.knows }
        ensures busy { IsFalse result → LastFoundTaken seat.old.knows seat.new.knows }
    {
        for _try in 0..TRIES {
            if self.try_hand(rt, seat, moves) {
                return true;
            }
            thread::yield_now();
        }
        self.try_hand(rt, seat, moves)
    }

    /// The same in one try.
    fn try_hand<R: Wait>(&self, rt: &R, seat: &mut BerthSeat, moves: bool) -> bool
        requires seat { seat.old.berth ≡ self.now.consumer }
        requires no_turn { seat.old.knows.turn ≡ false }
        ensures seat { (seat.new.berth ≡ seat.old.berth) × (seat.new.knows.turn ≡ false) }
        ensures had { IsTrue result → HadTurn seat.old.knows seat.new.knows }
        ensures busy { IsFalse result → FoundTaken seat.old.knows seat.new.knows }
    {
        let Ok(mut turn) = self.consumer.take(seat) else {
            return false;
        };
        if moves {
            turn.ware.move_pushed(rt, &self.ring);
        }
        turn.ware.hand_over(rt, &self.chain_ring);
        self.company.serve(turn.ware.take_requests());
        self.consumer.give(seat, turn);
        true
    }
}
