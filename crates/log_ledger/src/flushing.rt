//! What is flushed of each region.

ghost use Rattle.std.specs.Prelude.{◌≡◌, ◌≢◌, ◌↔◌, ◌+◌, ◌<◌, ◌≤◌, ◌&&◌, ◌==◌, if◌then◌else◌, ℕ, List, [], None, false, true, length, IfOk, IfSome, get_or, slice_set};
ghost use Rattle.std.specs.List.{AllByRecursion};
ghost use Rattle.std.specs.Option.{option_copied};
ghost use Rattle.seq_accounting.specs.Accounts.{flushed_at, is_for};
ghost use Rattle.seq_accounting.specs.Steps.{SameFiles};
ghost use Rattle.log_ledger.specs.History.{History, family_in, flushed_in};
ghost use Rattle.log_ledger.specs.Numbers.{IsServed, IsLeft, AreInOrder, AreStoresFew};
ghost use Rattle.log_ledger.specs.Counted.{IsCounted, HasUnflushed, NoneUnflushed, PutsCut};

use crate::ledger::Ledger;
use kv_cell::{NoMemory, NumberedCells};
use seq_accounting::FlushRoom;
use std::alloc::Global;

impl Ledger {
    /// Whether an entry of the region has a cell of this family, or of any where none is given, that isn't flushed.
    pub fn has_unflushed(&self, region: u32, family: Option<&[u8]>) -> bool
        requires served { IsServed self.now region }
        requires family { IfSome family (λ f. (1 ≤ length f.now) × (length f.now ≤ 127)) }
        ensures order { AreInOrder self.now }
        ensures left { result ≡ true → IsLeft self.now region (family_in (option_copied family.entry)) }
        ensures above { option_copied family.entry ≡ None → result ≡ true → get_or self.now.stored region 0 < get_or self.now.drawn region 0 }
        ensures empty { option_copied family.entry ≡ None → result ≡ false → get_or self.now.chains region [] ≡ [] }
        ensures some { (h : History) → IsCounted self.now h → result ≡ true → HasUnflushed h.kept region (option_copied family.entry) }
        ensures none { (h : History) → IsCounted self.now h → result ≡ false → NoneUnflushed h.kept region (option_copied family.entry) }
    {
        match family {
            Some(family) => self.accounts.oldest_unflushed(region, family).is_some(),
            None => !self.chains.is_empty(region),
        }
    }

    /// The cells of the region's entries that aren't flushed, newest entry first: those of one family, or all where it is
    /// empty.
    pub fn cells(
        &self,
        alloc: Global,
        region: u32,
        family: &[u8],
    ) -> Result<NumberedCells, NoMemory>
        requires { IsServed self.now region }
        ensures within { IfOk result (λ cells. AllByRecursion
            (λ x. (flushed_at self.now.accounts region family.now + 1 ≤ x.0) × (x.0 ≤ get_or self.now.drawn region 0)) cells) }
        ensures of { IfOk result (λ cells. AllByRecursion (λ x. family.now ≢ [] → x.1.family ≡ family.now) cells) }
        ensures cut { (h : History) → IsCounted self.now h → h.kept.staged ≡ []
            → IfOk result (PutsCut h.kept region family.now (get_or self.now.drawn region 0)) }
    {
        self.chains.cells(alloc, &self.accounts, region, family)
    }

    /// Takes one family of the region, or all where it is empty, whose entries are all committed, as flushed up to the
    /// region's last one, by a store file of its next number, and lets the trucks go of which nothing is left to flush. It
    /// takes no memory: the room was taken before.
    pub fn flush(&mut self, region: u32, room: FlushRoom)
        requires served { IsServed self.old region }
        requires left { IsLeft self.old region room }
        requires committed { get_or self.old.drawn region 0 ≤ get_or self.old.synced region 0 }
        ensures counted { (h : History) → IsCounted self.old h → h.kept.staged ≡ []
            → IsCounted self.new (flushed_in h region room (get_or self.old.drawn region 0)) }
        ensures stored { room ≡ [] → self.new.stored ≡ slice_set self.old.stored region (get_or self.old.drawn region 0) }
        ensures stored_still { room ≢ [] → self.new.stored ≡ self.old.stored }
        ensures next_store { self.new.next_store ≡ slice_set self.old.next_store region (get_or self.old.next_store region 0 + 1) }
        ensures flushed { (r : ℕ) (f : List ℕ) → flushed_at self.new.accounts r f
            ≡ (if region == r && is_for room f then get_or self.old.drawn region 0 else flushed_at self.old.accounts r f) }
        ensures few { (limit : ℕ) → AreStoresFew limit self.old → AreStoresFew limit self.new }
        ensures drawn { self.new.drawn ≡ self.old.drawn }
        ensures synced { self.new.synced ≡ self.old.synced }
        ensures closed { self.new.closed ≡ self.old.closed }
        ensures files { SameFiles self.old.accounts self.new.accounts }
    {
        let place = region as usize;
        let number = self.drawn[place];
        self.stored[place] = stored_by(&room, number, self.stored[place]);
        self.accounts.flush(region, number, room);
        self.next_store[place] += 1;
        self.chains.keep_unflushed(&self.accounts, region);
    }

    /// Takes note of a flush of all families that found nothing to flush: it gives the region's last committed sequence id.
    pub fn keep(&mut self, region: u32)
        requires served { IsServed self.old region }
        requires none { get_or self.old.chains region [] ≡ [] }
        ensures counted { (h : History) → IsCounted self.old h → IsCounted self.new h }
        ensures few { (limit : ℕ) → AreStoresFew limit self.old → AreStoresFew limit self.new }
        ensures stored { self.new ≡ record self.old { stored = slice_set self.old.stored region (get_or self.old.synced region 0) } }
    {
        self.stored[region as usize] = self.synced[region as usize];
    }
}

/// What is stored of a region after a flush with this room.
fn stored_by(room: &FlushRoom, number: u64, stored: u64) -> u64
    ensures all { room.now ≡ [] → result ≡ number }
    ensures one { room.now ≢ [] → result ≡ stored }
{
    if room.is_of_all() { number } else { stored }
}
