//! What is staged and committed.

ghost use Rattle.std.specs.Prelude.{◌≡◌, ℕ, ◌+◌, ◌<◌, ◌≤◌, List, [], get_or, slice_set, sum};
ghost use Rattle.log_model.specs.Entry.{Entry, IsEntry, entry_frame};
ghost use Rattle.seq_accounting.specs.Accounts.{flushed_at};
ghost use Rattle.seq_accounting.specs.Steps.{SameFiles};
ghost use Rattle.log_trucks.specs.Held.{Carries};
ghost use Rattle.log_ledger.specs.History.{History, staged_in, committed_in};
ghost use Rattle.log_ledger.specs.Numbers.{IsServed, AreStoresFew, AreInOrder};
ghost use Rattle.log_ledger.specs.Counted.{IsCounted};

use crate::ledger::Ledger;
use log_trucks::Truck;

impl Ledger {
    /// Keeps the truck of an entry that was staged into the current file. It takes constant time and no memory.
    pub fn stage(&mut self, truck: Box<Truck>)
        requires served { IsServed self.old truck.value.region }
        requires alone { truck.value.behind ≡ [] }
        requires entry { ∥ ((e : Entry) × Carries truck.value e) ∥₁ }
        requires above { get_or self.old.drawn truck.value.region 0 < truck.value.number }
        ensures counted { (h : History) (e : Entry) → IsCounted self.old h → IsEntry e → truck.value.bytes ≡ entry_frame e
            → e.region ≡ truck.value.region → e.number ≡ truck.value.number → IsCounted self.new (staged_in h e) }
        ensures drawn { self.new.drawn ≡ slice_set self.old.drawn truck.value.region truck.value.number }
        ensures grows { sum self.old.drawn + 1 ≤ sum self.new.drawn }
        ensures synced { self.new.synced ≡ self.old.synced }
        ensures stored { self.new.stored ≡ self.old.stored }
        ensures closed { self.new.closed ≡ self.old.closed }
        ensures next_store { self.new.next_store ≡ self.old.next_store }
        ensures flushed { (r : ℕ) (f : List ℕ) → flushed_at self.new.accounts r f ≡ flushed_at self.old.accounts r f }
        ensures few { (limit : ℕ) → AreStoresFew limit self.old → AreStoresFew limit self.new }
        ensures files { SameFiles self.old.accounts self.new.accounts }
    {
        let mut truck = truck;
        let region = truck.region;
        let number = truck.number;
        self.drawn[region as usize] = number;
        let marks = truck.take_marks();
        self.accounts.note(region, number, marks);
        self.chains.push(truck);
    }

    /// Takes all that is staged as committed.
    pub fn commit(&mut self)
        ensures counted { (h : History) → IsCounted self.old h → IsCounted self.new (committed_in h) }
        ensures synced { self.new ≡ record self.old { synced = self.old.drawn } }
        ensures few { (limit : ℕ) → AreStoresFew limit self.old → AreStoresFew limit self.new }
        ensures order { AreInOrder self.old }
    {
        self.synced = self.drawn;
    }
}
