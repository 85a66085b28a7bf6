//! From one log file to the next.
ghost use Rattle.std.specs.Prelude.{◌≡◌, ◌≤◌, ◌<◌, ◌↔◌, ℕ, true, false, Err, IfOk, IsErrOf};
ghost use Rattle.log_halves.specs.Numbers.{seen_synced, seen_closed};
ghost use Rattle.log_halves.specs.Counts.{rolled_by};
ghost use Rattle.log_service.specs.Places.{IsSeatOf, IsLaterSeat, written_of};
ghost use Rattle.log_service.specs.Turns.{HasMovedAll, SawAllChains, HasRolledFile};

use crate::seats::LogSeat;
use crate::service::LogService;
use disk_images::Disk;
use log_berth::Ware;
use log_device::{RollRefusal, Rolled};
use log_halves::ServiceNaming;
use std::alloc::Global;
use std::sync::Wait;

impl<D: Disk, N: ServiceNaming> LogService<D, N> {
    /// Takes both turns, moves what was pushed, up to 1,024 items, commits all that was moved, rolls, and after Ok renames the closed logs that
    /// are wholly flushed. After Ok, and where there is nothing to roll, the seat has seen each closed word at or above the synced words that it
    /// had seen before. `WriteFault` exactly where the seat has then seen the fault.
    #[tactic(auto, using(crate::proofs::SeatLaws::later_trans))]
    pub fn roll<R: Wait>(
        &self,
        rt: &R,
        alloc: Global,
        seat: &mut LogSeat,
    ) -> Result<Rolled, RollRefusal>
        requires seat { IsSeatOf self.now seat.old }
        ensures seat { IsSeatOf self.now seat.new }
        ensures later { IsLaterSeat seat.old seat.new }
        // What it answers, unless the log is broken, is of the file that the log had once all that was moved was committed.
        ensures rolled { seat.new.device.knows.broken ≡ false → HasRolledFile D.Disk N.ServiceNaming self.now.regions result seat.new.device.knows }
        ensures closed { IfOk result (λ _. (r : ℕ) → 0 < r → r ≤ self.now.regions
            → seen_synced seat.old.device.knows r ≤ seen_closed self.now.regions seat.new.device.knows r) }
        ensures nothing { (n : ℕ) → result ≡ Err (RollRefusal.NothingToRoll n) → (r : ℕ) → 0 < r → r ≤ self.now.regions
            → seen_synced seat.old.device.knows r ≤ seen_closed self.now.regions seat.new.device.knows r }
        // Unless the log is broken, all that was moved is committed, and the seat has seen so.
        ensures moved { seat.new.device.knows.broken ≡ false → HasMovedAll N.ServiceNaming }
        ensures saw { seat.new.device.knows.broken ≡ false → SawAllChains D.Disk N.ServiceNaming seat.new.device.knows }
        // After Ok the rolls of this seat have closed a log file more, and else none.
        ensures counted { written_of seat.new ≡ rolled_by result (written_of seat.old) }
        ensures fault { IsErrOf result RollRefusal.WriteFault ↔ (seat.new.device.knows.broken ≡ true) }
    {
        let (mut mover, mut turn) = self.take_both(rt, seat);
        if turn.ware.broken() {
            self.device.give(&mut seat.device, turn);
            self.consumer.give(&mut seat.consumer, mover);
            self.tell_turn();
            return Err(RollRefusal::WriteFault);
        }
        let rings = (&self.ring, &self.chain_ring);
        let rolled = mover
            .ware
            .roll(rt, alloc, rings, &mut turn.ware, &mut seat.written);
        self.give_both(seat, mover, turn);
        rolled
    }
}
