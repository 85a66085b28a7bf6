//! Turns.
ghost use Rattle.std.specs.Prelude.{◌≡◌, ◌≤◌, ◌<◌, ◌+◌, ◌⊎◌, ◌↔◌, ◌++◌, ◌∷◌, [], List, length, ℕ, true, false, IsTrue};
ghost use Rattle.crossbeam_queue.specs.Passes.{view};
ghost use Rattle.log_trucks.specs.Held.{Held};
ghost use Rattle.log_berth.specs.Words.{NoMore, looked};
ghost use Rattle.log_berth.specs.Turns.{turn_id};
ghost use Rattle.log_device.specs.Whole.{IsBroken, disk_of, numbers_of};
ghost use Rattle.log_halves.specs.Chains.{AreInOrder};
ghost use Rattle.log_halves.specs.Halves.{broken_of};
ghost use Rattle.log_halves.specs.Moves.{WasFull};
ghost use Rattle.log_halves.specs.Numbers.{told_numbers};
ghost use Rattle.log_service.specs.Places.{IsSeatOf, IsLaterSeat, FoundTaken, HadTurn, HadBothTurns, FoundOneTaken};
ghost use Rattle.log_service.specs.Turns.{HasMovedItems, FoundEmpty, FoundTooLong, HasSynced, FoundNoChain, SawCommitted};

use crate::seats::LogSeat;
use crate::service::LogService;
use disk_images::Disk;
use log_berth::Turn;
use log_halves::{Commit, DeviceHalf, Moves, ServiceNaming, raise_all};
use std::sync::Wait;

/// What a consumer's turn did.
#[derive(Clone, Copy, Debug, PartialEq, Eq)]
pub enum ConsumerTurn {
    /// So many items were moved, at most 64.
    Moved(u64),
    /// Another seat has the consumer's turn.
    Busy,
    /// The ring was empty.
    Empty,
    /// The next item doesn't fit the chain.
    StageFull,
    /// The log is broken.
    Broken,
}

/// What a sync turn did.
#[derive(Clone, Copy, Debug, PartialEq, Eq)]
pub enum SyncTurn {
    /// So many entries were committed.
    Synced(u64),
    /// Another seat has one of the two turns.
    Busy,
    /// There was no chain.
    Clean,
    /// A disk call failed in this turn.
    WriteFault,
    /// The fault word was found set: the log was broken before.
    Broken,
}

impl<D: Disk, N: ServiceNaming> LogService<D, N> {
    /// Moves up to 64 items: first the held one, then popped ones in the ring's order. Each append goes into the chain, and each sync
    /// request is noted. `Moved` says how many. Where the next item doesn't fit the chain it is kept, and the answer is `StageFull` if none was
    /// moved. Broken exactly where the fault word was found set. It takes no memory.
    pub fn consumer_turn<R: Wait>(&self, rt: &R, seat: &mut LogSeat) -> ConsumerTurn
        requires seat { IsSeatOf self.now seat.old }

        ensures seat { IsSeatOf self.now seat.new }
        ensures later { IsLaterSeat seat.old seat.new }
        ensures moved { (n : ℕ) → result ≡ ConsumerTurn.Moved n → (1 ≤ n) × (n ≤ 64) }
        ensures had { ((n : ℕ) → result ≡ ConsumerTurn.Moved n → HadTurn seat.old.consumer.knows seat.new.consumer.knows)
            × (result ≡ ConsumerTurn.Empty → HadTurn seat.old.consumer.knows seat.new.consumer.knows)
            × (result ≡ ConsumerTurn.StageFull → HadTurn seat.old.consumer.knows seat.new.consumer.knows) }
        // What the work has shown.
        ensures items { (n : ℕ) → result ≡ ConsumerTurn.Moved n → HasMovedItems N.ServiceNaming n }
        ensures empty { result ≡ ConsumerTurn.Empty → FoundEmpty N.ServiceNaming }
        ensures full { result ≡ ConsumerTurn.StageFull → FoundTooLong N.ServiceNaming }
        ensures busy { result ≡ ConsumerTurn.Busy → FoundTaken seat.old.consumer.knows seat.new.consumer.knows }
        ensures looked { seat.new.device.knows.tally ≡ looked seat.old.device.knows.tally }
        ensures broken { (result ≡ ConsumerTurn.Broken) ↔ (seat.new.device.knows.broken ≡ true) }
        ensures untried { result ≡ ConsumerTurn.Broken → seat.new.consumer ≡ seat.old.consumer }
    {
        if self.device.broken(&mut seat.device) {
            return ConsumerTurn::Broken;
        }
        let Ok(mut turn) = self.consumer.take(&mut seat.consumer) else {
            return ConsumerTurn::Busy;
        };
        let moves = turn.ware.move_items(rt, &self.ring);
        self.consumer.give(&mut seat.consumer, turn);
        match moves {
            Moves::Moved(count) => ConsumerTurn::Moved(count),
            Moves::Empty => ConsumerTurn::Empty,
            Moves::StageFull => {
                self.company.hurry();
                ConsumerTurn::StageFull
            }
        }
    }

    /// Looks at the fault word and takes the device's turn, hands the chain over where a sync request was moved since the last time or an item is
    /// held, and then commits one chain, however many entries it has, in four disk calls. So a chain has all that was moved while the last one was
    /// committed. `Synced` says how many entries, and the synced words are raised. Busy only where one of the two turn words was found taken:
    /// then nothing is handed over. Clean where no chain was there. Broken exactly where the fault word was found set, at the look or at a
    /// second one with the device's turn. It takes no memory.
    #[tactic(auto, using(crate::proofs::SeatLaws::later_trans))]
    pub fn sync_turn<R: Wait>(&self, rt: &R, seat: &mut LogSeat) -> SyncTurn
        requires seat { IsSeatOf self.now seat.old }

        ensures seat { IsSeatOf self.now seat.new }
        ensures later { IsLaterSeat seat.old seat.new }
        ensures synced { (n : ℕ) → result ≡ SyncTurn.Synced n → HadBothTurns seat.old seat.new
            × HasSynced D.Disk N.ServiceNaming seat.old.device.knows seat.new.device.knows n }
        ensures clean { result ≡ SyncTurn.Clean → HadBothTurns seat.old seat.new × FoundNoChain D.Disk N.ServiceNaming seat.new.device.knows }
        ensures busy { result ≡ SyncTurn.Busy → FoundOneTaken seat.old seat.new }
        ensures fault { result ≡ SyncTurn.WriteFault → HadBothTurns seat.old seat.new
            × (seat.old.device.knows.broken ≡ false) × (seat.new.device.knows.broken ≡ true) }
        ensures tried { (seat.new.consumer ≡ seat.old.consumer) ⊎ HadTurn seat.old.device.knows seat.new.device.knows }
        ensures looked { seat.old.device.knows.tally.looks < seat.new.device.knows.tally.looks }
        ensures broken { (result ≡ SyncTurn.Broken) ↔ ((seat.new.device.knows.broken ≡ true) × (seat.new.consumer ≡ seat.old.consumer)) }
        ensures whole { (result ≡ SyncTurn.Broken → ⊥) → (result ≡ SyncTurn.WriteFault → ⊥) → seat.new.device.knows.broken ≡ false }
    {
        if self.broken(seat) {
            return SyncTurn::Broken;
        }
        self.turn_over(rt, seat, false)
    }

    /// The same without the first look. Before the chain is handed over it may wait for company, and move what was pushed, so that a commit has
    /// all of it.
    pub(crate) fn turn_over<R: Wait>(&self, rt: &R, seat: &mut LogSeat, moves: bool) -> SyncTurn
        requires seat { IsSeatOf self.now seat.old }

        ensures seat { IsSeatOf self.now seat.new }
        ensures later { IsLaterSeat seat.old seat.new }
        ensures synced { (n : ℕ) → result ≡ SyncTurn.Synced n → HadBothTurns seat.old seat.new
            × HasSynced D.Disk N.ServiceNaming seat.old.device.knows seat.new.device.knows n }
        ensures clean { result ≡ SyncTurn.Clean → HadBothTurns seat.old seat.new × FoundNoChain D.Disk N.ServiceNaming seat.new.device.knows }
        ensures busy { result ≡ SyncTurn.Busy → FoundOneTaken seat.old seat.new }
        ensures fault { result ≡ SyncTurn.WriteFault → HadBothTurns seat.old seat.new
            × (seat.old.device.knows.broken ≡ false) × (seat.new.device.knows.broken ≡ true) }
        ensures tried { (seat.new.consumer ≡ seat.old.consumer) ⊎ HadTurn seat.old.device.knows seat.new.device.knows }
        ensures looked { seat.old.device.knows.tally.looks ≤ seat.new.device.knows.tally.looks }
        ensures broken { result ≡ SyncTurn.Broken → (seat.new.device.knows.broken ≡ true) × (seat.new.consumer ≡ seat.old.consumer) }
        ensures whole { (result ≡ SyncTurn.Broken → ⊥) → (result ≡ SyncTurn.WriteFault → ⊥) → seat.old.device.knows.broken ≡ false
            → seat.new.device.knows.broken ≡ false }
    {
        // The device's turn comes first, and the consumer's inside it: whoever hands a chain over is the one that commits it.
        let Ok(mut turn) = self.device.take(&mut seat.device) else {
            return SyncTurn::Busy;
        };
        // Another seat may have broken the log since the last look.
        if self.device.broken(&mut seat.device) {
            self.end_turn(&mut seat.device, turn);
            return SyncTurn::Broken;
        }
        if moves {
            self.company.gather(rt);
        }
        if !self.hand_chain(rt, &mut seat.consumer, moves) {
            self.end_turn(&mut seat.device, turn);
            return SyncTurn::Busy;
        }
        let commit = self.commit_and_raise(rt, seat, &mut turn);
        self.company.learn();
        self.end_turn(&mut seat.device, turn);
        match commit {
            Commit::Committed(count) => SyncTurn::Synced(count),
            Commit::Clean => SyncTurn::Clean,
            Commit::WriteFault => SyncTurn::WriteFault,
        }
    }

    /// Commits a chain with the device's turn, and raises the synced words or sets the fault word.
    fn commit_and_raise<R: Wait>(
        &self,
        rt: &R,
        seat: &mut LogSeat,
        turn: &mut Turn<DeviceHalf<D, N>>,
    ) -> Commit
        requires seat { seat.old.device.berth ≡ self.now.device }
        requires turn { (seat.old.device.knows.turn ≡ true) × (turn_id turn.old ≡ self.now.device) }
        requires whole { seat.old.device.knows.broken ≡ false }
        requires unbroken { IsBroken turn.old.ware.device → ⊥ }
        requires below { NoMore seat.old.device.knows.seen (told_numbers turn.old.ware.regions (numbers_of turn.old.ware.device)) }
        ensures seat { (seat.new.consumer ≡ seat.old.consumer) × (seat.new.device.berth ≡ seat.old.device.berth)
            × (seat.new.device.knows.turn ≡ true) × (seat.new.device.knows.tally ≡ seat.old.device.knows.tally) }
        ensures turn { turn_id turn.new ≡ turn_id turn.old }
        ensures later { NoMore seat.old.device.knows.seen seat.new.device.knows.seen }
        ensures below { NoMore seat.new.device.knows.seen (told_numbers turn.new.ware.regions (numbers_of turn.new.ware.device)) }
        ensures broken { broken_of turn.new.ware.device ≡ seat.new.device.knows.broken }
        ensures sees { (n : ℕ) → result ≡ Commit.Committed n → SawCommitted N.lasts seat.new.device.knows (view turn.new.ware.consumer.pass).popped }
        ensures fault { result ≡ Commit.WriteFault → seat.new.device.knows.broken ≡ true }
        ensures committed { (n : ℕ) → result ≡ Commit.Committed n → (chain : List Held)
            × ((view turn.new.ware.consumer.pass).popped ≡ (view turn.old.ware.consumer.pass).popped ++ chain ∷ []) × (n ≡ length chain) }
        ensures ordered { (n : ℕ) → result ≡ Commit.Committed n → AreInOrder N.lasts (view turn.new.ware.consumer.pass).popped }
        ensures clean { result ≡ Commit.Clean → (turn.new.ware.device ≡ turn.old.ware.device)
            × (view turn.new.ware.consumer.pass ≡ view turn.old.ware.consumer.pass) × WasFull 0 (view turn.old.ware.consumer.pass) }
        ensures clock { IsTrue D.told → (D.view (disk_of turn.new.ware.device)).clock ≤ (D.view (disk_of turn.old.ware.device)).clock + 4 }
        ensures some { (n : ℕ) → result ≡ Commit.Committed n → 1 ≤ n }
        ensures whole { ((n : ℕ) → result ≡ Commit.Committed n → seat.new.device.knows.broken ≡ false)
            × (result ≡ Commit.Clean → seat.new.device.knows.broken ≡ false) }
    {
        let commit = turn.ware.commit_one(rt, &self.chain_ring);
        match commit {
            Commit::Committed(_) => {
                raise_all(&self.device, &mut seat.device, turn, self.regions);
            }
            Commit::Clean => {}
            Commit::WriteFault => {
                self.device.break_log(&mut seat.device, turn);
            }
        }
        commit
    }
}
