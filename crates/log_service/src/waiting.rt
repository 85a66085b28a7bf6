//! Waiting for what was pushed to be durable.
ghost use Rattle.std.specs.Prelude.{◌≡◌, ◌≤◌, ◌<◌, ◌-◌, true, slice_index};
ghost use Rattle.log_halves.specs.Numbers.{seen_synced};
ghost use Rattle.log_service.specs.Places.{IsSeatOf, IsLaterSeat};

use crate::seats::LogSeat;
use crate::service::LogService;
use crate::turning::SyncTurn;
use disk_images::Disk;
use log_halves::ServiceNaming;
use std::sync::Wait;
use std::thread;

/// How a wait ended.
#[derive(Clone, Copy, Debug, PartialEq, Eq)]
pub enum Waited {
    /// The seat has seen the synced word at or above the number.
    Synced,
    /// The fault word was seen set, and the synced word loaded after that is below the number. It stands.
    Broken,
}

impl<D: Disk, N: ServiceNaming> LogService<D, N> {
    /// Loads the fault word, and then the region's synced word.
    fn look(&self, seat: &mut LogSeat, region: u32) -> (bool, u64)
        requires seat { IsSeatOf self.now seat.old }
        requires region { (0 < region) × (region ≤ self.now.regions) }
        ensures seat { IsSeatOf self.now seat.new }
        ensures later { IsLaterSeat seat.old seat.new }
        ensures broken { result.0 ≡ seat.new.device.knows.broken }
        ensures number { result.1 ≡ seen_synced seat.new.device.knows region }
        ensures stands { result.0 ≡ true → result.1 ≡ slice_index seat.new.device.knows.last (region - 1) }
    {
        let broken = self.device.broken(&mut seat.device);
        let number = self.device.seen(&mut seat.device, region);
        (broken, number)
    }

    /// Calls another put to make the next commit, where this one, which needs none, was woken for it: it slept on the count of the even or the
    /// odd commits, and the last one that was begun isn't of them.
    fn pass_on(&self, slept: Option<bool>) {
        if let Some(is_odd) = slept {
            if is_odd != self.company.is_odd() {
                self.commits.of(is_odd).wake_one();
            }
        }
    }

    /// Waits until the region's synced word is at or above a number, or the log is broken below it. Meanwhile it takes turns. Where another
    /// seat has one it sleeps until the commit has ended that has what was pushed, or until it is called to make that one. Where nothing was
    /// there to commit it gives the processor away.
    #[tactic(auto, using(crate::proofs::SeatLaws::later_trans))]
    pub fn wait_synced<R: Wait>(
        &self,
        rt: &R,
        seat: &mut LogSeat,
        region: u32,
        number: u64,
    ) -> Waited
        requires seat { IsSeatOf self.now seat.old }
        requires region { (0 < region) × (region ≤ self.now.regions) }
        ensures seat { IsSeatOf self.now seat.new }
        ensures later { IsLaterSeat seat.old seat.new }
        ensures synced { result ≡ Waited.Synced → number ≤ seen_synced seat.new.device.knows region }
        ensures broken { result ≡ Waited.Broken → (seat.new.device.knows.broken ≡ true) × (seen_synced seat.new.device.knows region < number) }
        ensures stands { result ≡ Waited.Broken → slice_index seat.new.device.knows.last (region - 1) < number }
    {
        let requests = self.company.pushed();
        let mut slept = None;
        for _turn in rt.forever() {
            let is_odd = self.company.is_odd_with(requests);
            let ended = self.commits.of(is_odd).now();
            let (broken, synced) = self.look(seat, region);
            if synced >= number {
                self.pass_on(slept);
                return Waited::Synced;
            }
            if broken {
                return Waited::Broken;
            }
            match self.turn_over(rt, seat, true) {
                SyncTurn::Synced(_) => {}
                // No wake-up is lost. A turn was found taken after the count was read, and who has the device's turn raises both counts
                // after giving it back, and wakes all that sleep on the one and one that sleeps on the other. That one takes the turn, or
                // finds it taken by who will raise the counts next, or passes the call on. Who has the consumer's turn has the device's
                // too, or tries for it next: then that thread raises the counts, or the one that it finds with the device's turn.
                SyncTurn::Busy => {
                    let _moves = self.consumer_turn(rt, seat);
                    self.commits.of(is_odd).rest(rt, ended);
                    slept = Some(is_odd);
                }
                _ => thread::yield_now(),
            }
        }
        unreachable!()
    }
}
