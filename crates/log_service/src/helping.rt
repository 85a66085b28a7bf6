//! Helping the log, for threads that wait for something else and for such as do nothing else.
ghost use Rattle.std.specs.Prelude.{◌≡◌, ◌⊎◌, true};
ghost use Rattle.log_service.specs.Places.{IsSeatOf, IsLaterSeat, FoundTaken, HadTurn, LastFoundTaken, LastHadTurn};

use crate::seats::LogSeat;
use crate::service::LogService;
use crate::turning::{ConsumerTurn, SyncTurn};
use disk_images::Disk;
use log_halves::ServiceNaming;
use std::sync::Wait;

/// What a helping thread found.
#[derive(Clone, Copy, Debug, PartialEq, Eq)]
pub enum Helped {
    /// Items were moved or entries committed, by this seat or by another that has since given its turn back, and there may be more.
    Something,
    /// This seat moved and committed nothing, and another one had one of the two turns.
    Busy,
    /// There was nothing to move and nothing to commit, or the log is broken.
    Nothing,
}

impl<D: Disk, N: ServiceNaming> LogService<D, N> {
    /// Helps the log once: a consumer turn and a sync turn. Busy only where its last exchange on one of the two turn words found the word
    /// taken, Nothing only where both were found free or the log is broken, and Something only where it had one of the two turns.
    #[tactic(auto, using(crate::proofs::SeatLaws::later_trans))]
    pub fn help<R: Wait>(&self, rt: &R, seat: &mut LogSeat) -> Helped
        requires { IsSeatOf self.now seat.old }
        ensures seat { IsSeatOf self.now seat.new }
        ensures later { IsLaterSeat seat.old seat.new }
        ensures busy { result ≡ Helped.Busy → LastFoundTaken seat.old.consumer.knows seat.new.consumer.knows
            ⊎ FoundTaken seat.old.device.knows seat.new.device.knows }
        ensures nothing { result ≡ Helped.Nothing → (seat.new.device.knows.broken ≡ true)
            ⊎ (LastHadTurn seat.old.consumer.knows seat.new.consumer.knows × HadTurn seat.old.device.knows seat.new.device.knows) }
        ensures something { result ≡ Helped.Something → LastHadTurn seat.old.consumer.knows seat.new.consumer.knows
            ⊎ HadTurn seat.old.device.knows seat.new.device.knows }
    {
        let moves = self.consumer_turn(rt, seat);
        let commit = self.sync_turn(rt, seat);
        match (moves, commit) {
            (ConsumerTurn::Moved(_), _) | (_, SyncTurn::Synced(_)) => Helped::Something,
            (ConsumerTurn::Broken, _) | (_, SyncTurn::WriteFault | SyncTurn::Broken) =>
                Helped::Nothing,
            (_, SyncTurn::Busy) => Helped::Busy,
            (ConsumerTurn::Empty, SyncTurn::Clean) => Helped::Nothing,
            // Another seat moved items, or handed over the chain that they did not fit.
            (ConsumerTurn::Busy | ConsumerTurn::StageFull, SyncTurn::Clean) => Helped::Something,
        }
    }
}
