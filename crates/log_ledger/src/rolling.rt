//! Log files that are closed, and those that may go.

ghost use Rattle.std.specs.Prelude.{◌≡◌, ◌+◌, ◌<◌, ◌≤◌, ◌^◌, ℕ, List, [], length, Contains, sum, OnOk, IfSome, MatchOption};
ghost use Rattle.seq_accounting.specs.Accounts.{IsClosed};
ghost use Rattle.log_ledger.specs.History.{ClosedLog, History, closed_in, with_logs};
ghost use Rattle.log_ledger.specs.Numbers.{AreStoresFew, SameRegions};
ghost use Rattle.log_ledger.specs.Counted.{IsCounted, NoneMayGoAbove, GoesNext, LogsLeft};

use crate::ledger::Ledger;
use kv_cell::NoMemory;
use log_archive::first_to_go;

impl Ledger {
    /// Makes room for one more closed file.
    pub fn reserve_file(&mut self) -> Result<(), NoMemory>
        ensures counted { (h : History) → IsCounted self.old h → IsCounted self.new h }
        ensures ok { OnOk result (1 ≤ self.new.accounts.room) }
        ensures same { self.new ≡ record self.old { accounts = record self.old.accounts { room = self.new.accounts.room } } }
        ensures room { self.old.accounts.room ≤ self.new.accounts.room }
        ensures few { (limit : ℕ) → AreStoresFew limit self.old → AreStoresFew limit self.new }
        ensures small { sum self.old.drawn < 2 ^ 55 }
    {
        match self.accounts.reserve_file() {
            Ok(()) => Ok(()),
            Err(_) => Err(NoMemory),
        }
    }

    /// Takes the current file as closed under this number, and begins with an empty current file. It takes no memory.
    pub fn close(&mut self, file: u64)
        requires room { 1 ≤ self.old.accounts.room }
        requires given { 1 ≤ file }
        requires above { self.old.accounts.last < file }
        ensures counted { (h : History) → IsCounted self.old h → h.kept.staged ≡ [] → IsCounted self.new (closed_in h file) }
        ensures closed { self.new.closed ≡ self.old.synced }
        ensures last { self.new.accounts.last ≡ file }
        ensures room { self.new.accounts.room + 1 ≡ self.old.accounts.room }
        ensures few { (limit : ℕ) → AreStoresFew limit self.old → AreStoresFew limit self.new }
        ensures same { SameRegions self.old (record self.new { closed = self.old.closed }) }
    {
        self.closed = self.synced;
        self.accounts.close_file(file);
    }

    /// Takes the current file, in which no entry stands, as closed, and begins with another empty one.
    pub fn close_empty(&mut self)
        ensures counted { (h : History) → IsCounted self.old h → h.kept.staged ≡ [] → h.current ≡ [] → IsCounted self.new h }
        ensures few { (limit : ℕ) → AreStoresFew limit self.old → AreStoresFew limit self.new }
        ensures closed { self.new ≡ record self.old { closed = self.old.synced } }
    {
        self.closed = self.synced;
    }

    /// The least closed file above this number whose entries are all flushed; 0 begins. It takes no memory.
    pub fn first_to_go(&self, above: u64) -> Option<u64>
        ensures member { IfSome result (λ file. IsClosed self.now.accounts.closed file) }
        ensures later { IfSome result (λ file. above < file) }
        ensures given { (h : History) → IsCounted self.now h → (c : ClosedLog) → Contains h.logs c → 1 ≤ c.number }
        ensures exact { (h : History) → IsCounted self.now h → MatchOption result (NoneMayGoAbove h above) (GoesNext h above) }
    {
        first_to_go(&self.accounts, above)
    }

    /// Forgets each closed file whose entries are all flushed, and gives their number. It looks at each closed file once,
    /// and takes no memory.
    pub fn forget_flushed(&mut self) -> u64
        ensures counted { (h : History) → IsCounted self.old h → (left : List ClosedLog) × LogsLeft h left
            × (length left + result ≡ length h.logs) × IsCounted self.new (with_logs h left) }
        ensures fewer { length self.new.accounts.closed + result ≡ length self.old.accounts.closed }
        ensures last { self.new.accounts.last ≡ self.old.accounts.last }
        ensures room { self.old.accounts.room ≤ self.new.accounts.room }
        ensures few { (limit : ℕ) → AreStoresFew limit self.old → AreStoresFew limit self.new }
        ensures same { SameRegions self.old self.new }
    {
        self.accounts.forget_lower()
    }
}
