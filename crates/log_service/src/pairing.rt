//! Both turns at once.
ghost use Rattle.std.specs.Prelude.{◌≡◌, true, false, []};
ghost use Rattle.log_berth.specs.Words.{NoMore};
ghost use Rattle.log_berth.specs.Turns.{turn_id};
ghost use Rattle.log_device.specs.Whole.{numbers_of};
ghost use Rattle.log_halves.specs.Halves.{broken_of};
ghost use Rattle.log_halves.specs.Numbers.{told_numbers, HasSeen};
ghost use Rattle.log_service.specs.Places.{IsSeatOf, IsLaterSeat, written_of};

use crate::seats::LogSeat;
use crate::service::LogService;
use disk_images::Disk;
use log_berth::Turn;
use log_halves::{ConsumerHalf, DeviceHalf, ServiceNaming, tell_all};
use std::sync::Wait;
use std::thread;

impl<D: Disk, N: ServiceNaming> LogService<D, N> {
    /// Takes both turns, the consumer's first, which it gives back where the device's is taken. Then it sleeps until that turn has ended.
    #[tactic(auto, using(crate::proofs::SeatLaws::later_trans))]
    pub(crate) fn take_both<R: Wait>(
        &self,
        rt: &R,
        seat: &mut LogSeat,
    ) -> (Turn<ConsumerHalf<N>>, Turn<DeviceHalf<D, N>>)
        requires seat { IsSeatOf self.now seat.old }
        ensures berths { (seat.new.consumer.berth ≡ self.now.consumer) × (seat.new.device.berth ≡ self.now.device) }
        ensures turns { (seat.new.consumer.knows.turn ≡ true) × (seat.new.device.knows.turn ≡ true)
            × (turn_id result.0 ≡ self.now.consumer) × (turn_id result.1 ≡ self.now.device) }
        ensures consumer { (seat.new.consumer.knows.broken ≡ false) × NoMore seat.new.consumer.knows.seen [] }
        ensures device { (broken_of result.1.ware.device ≡ seat.new.device.knows.broken)
            × NoMore seat.new.device.knows.seen (told_numbers result.1.ware.regions (numbers_of result.1.ware.device)) }
        ensures later { IsLaterSeat seat.old seat.new }
        ensures written { written_of seat.new ≡ written_of seat.old }
    {
        for _try in rt.forever() {
            let turns = self.turns();
            let Ok(mover) = self.consumer.take(&mut seat.consumer) else {
                thread::yield_now();
                continue;
            };
            match self.device.take(&mut seat.device) {
                Ok(turn) => return (mover, turn),
                Err(_) => {
                    self.consumer.give(&mut seat.consumer, mover);
                    self.rest(rt, turns);
                }
            }
        }
        unreachable!()
    }

    /// Raises all words to what the device tells, or sets the fault word where the device broke, and gives both turns back.
    pub(crate) fn give_both(
        &self,
        seat: &mut LogSeat,
        mover: Turn<ConsumerHalf<N>>,
        turn: Turn<DeviceHalf<D, N>>,
    )
        requires berths { (seat.old.consumer.berth ≡ self.now.consumer) × (seat.old.device.berth ≡ self.now.device) }
        requires turns { (seat.old.consumer.knows.turn ≡ true) × (seat.old.device.knows.turn ≡ true)
            × (turn_id mover ≡ self.now.consumer) × (turn_id turn ≡ self.now.device) }
        requires consumer { (seat.old.consumer.knows.broken ≡ false) × NoMore seat.old.consumer.knows.seen [] }
        requires whole { seat.old.device.knows.broken ≡ false }
        requires device { NoMore seat.old.device.knows.seen (told_numbers turn.ware.regions (numbers_of turn.ware.device)) }
        ensures seat { IsSeatOf self.now seat.new }
        ensures later { IsLaterSeat seat.old seat.new }
        ensures written { written_of seat.new ≡ written_of seat.old }
        ensures broken { broken_of turn.ware.device ≡ seat.new.device.knows.broken }
        ensures saw { seat.new.device.knows.broken ≡ false → HasSeen self.now.regions seat.new.device.knows (numbers_of turn.ware.device) }
    {
        let mut mover = mover;
        self.company.serve(mover.ware.take_requests());
        tell_all(&self.device, &mut seat.device, &turn, 3 * self.regions);
        self.device.give(&mut seat.device, turn);
        self.consumer.give(&mut seat.consumer, mover);
        self.tell_turn();
    }
}
