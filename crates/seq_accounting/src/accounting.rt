//! The accounting of regions, families and files.

ghost use Rattle.std.specs.Prelude.{◌≡◌, ℕ, ◌+◌, ◌-◌, ◌<◌, ◌≤◌, ◌↔◌, List, [], ◌∷◌, ◌++◌, length, replicate, slice_set, get_or, All, AllPairs, Contains, IsTrue, IfOk, IfSome, OnOk, OnErr, MatchOption};
ghost use Rattle.seq_accounting.specs.Accounts.{ClosedFile, flushed_at, AreLower, are_lower, IsClosed, unflushed, NoneClosedAbove, IsNextClosed, AreApart, AreFlushed};
ghost use Rattle.seq_accounting.specs.Steps.{IsNoted, IsStarted, IsCompleted, IsAborted, IsFlushed, SameNumbers};
ghost use Rattle.seq_accounting.specs.Noted.{Note, NoneAbove, IsLeastAbove, HasNoted, KeepsNoted, AreNotedAs};
ghost use Rattle.seq_accounting.specs.Order.{IsInOrder};

use crate::closed::{FileMark, place_above, place_of};
use crate::error::NoMemory;
use crate::families::FamilyMarks;
use crate::flushed::FlushedNumbers;
use crate::flushing::{FlushRoom, Flushing, MarkRoom, Spent};
use crate::marks::Marks;
use crate::numbers::{NOTHING, flushed_by};
use crate::region::{PLACES, RegionMark};
use crate::regions::RegionMarks;
use std::alloc::Global;
use std::marker::Model;

// how many files may be closed before the list grows for the first time
const FIRST_ROOM: usize = 8;

/// What is flushed of each family of each region, what was noted of it, and the files that are closed. Regions are at most 64.
///
/// Its memory is by families and not by entries: a mark for each family of a region that is in the current file, one for each
/// that is in a closed file, one for each that has an unflushed entry, and two for each that was flushed alone since the last
/// flush of all.
pub struct Accounting {
    flushed: FlushedNumbers,
    noted: [u64; PLACES],
    flushing: [u64; PLACES],
    oldest: RegionMarks,
    since: RegionMarks,
    current: Marks,
    closed: Vec<FileMark>,
    last: u64,
}

/// By hand, as that of kv_cell's `Octets`: the crates above call it.
impl Drop for Accounting {
    fn drop(self) {
        let Accounting {
            flushed: _,
            noted: _,
            flushing: _,
            oldest: _,
            since: _,
            current: _,
            closed: _,
            last: _,
        } = self;
    }
}

impl Model for Accounting {
    ghost use Rattle.seq_accounting.specs.Accounts.{Accounts};

    ghost Value = { Accounts };

    ghost use Rattle.seq_accounting.specs.Order.{IsInOrder};
    ghost use Rattle.seq_accounting.specs.View.{accounts_of};

    ghost view = { accounts_of };

    ghost invariant = { λ a. IsInOrder (accounts_of a) };
}

impl Accounting {
    /// The accounting of regions of which this is flushed, with no file closed.
    pub fn new(alloc: Global, regions: &[RegionMark]) -> Result<Accounting, NoMemory>
        requires within { All (λ m. m.region ≤ 64) regions.now }
        requires apart { AllPairs AreApart regions.now }
        ensures whole { IfOk result (λ a. AreFlushed regions.now a.whole) }
        ensures noted { IfOk result (λ a. a.noted ≡ a.whole) }
        ensures flushing { IfOk result (λ a. a.flushing ≡ replicate PLACES 0) }
        ensures flushed { IfOk result (λ a. a.flushed ≡ replicate PLACES []) }
        ensures oldest { IfOk result (λ a. a.oldest ≡ replicate PLACES []) }
        ensures since { IfOk result (λ a. a.since ≡ replicate PLACES []) }
        ensures current { IfOk result (λ a. a.current ≡ []) }
        ensures closed { IfOk result (λ a. a.closed ≡ []) }
        ensures last { IfOk result (λ a. a.last ≡ 0) }
        ensures history { IfOk result (λ a. HasNoted a []) }
        ensures order { IfOk result IsInOrder }
    {
        let closed = Vec::with_capacity(alloc, FIRST_ROOM)?;
        let families = RegionMarks::new(alloc)?;
        let oldest = RegionMarks::new(alloc)?;
        let since = RegionMarks::new(alloc)?;
        let whole = flushed_by(regions);
        Ok(Accounting {
            flushed: FlushedNumbers { whole, families },
            noted: whole,
            flushing: NOTHING,
            oldest,
            since,
            current: Marks::new(),
            closed,
            last: 0,
        })
    }

    /// Notes that an entry of this number, with cells of these families, went into the current file. It takes no memory, and
    /// time by the families of the entry.
    pub fn note(&mut self, region: u32, number: u64, marks: FamilyMarks)
        requires region { region ≤ 64 }
        requires above { get_or self.old.noted region 0 < number }
        ensures noted { IsNoted self.old self.new region number marks }
        ensures history { (notes : List Note) (x : Note) → AreNotedAs marks region number x → HasNoted self.old notes
            → HasNoted self.new (notes ++ x ∷ []) }
        ensures order { IsInOrder self.new }
    {
        let (account, file) = marks.parts();
        let mut noted = Marks::new();
        noted.note(account, region, number);
        self.current.note(file, region, number);
        self.noted[region as usize] = number;
        if self.flushing[region as usize] == 0 {
            self.oldest.pour(region, noted);
        } else {
            self.since.pour(region, noted);
        }
    }

    /// Makes room for one more closed file. Where it is refused, there was none.
    pub fn reserve_file(&mut self) -> Result<(), NoMemory>
        ensures ok { OnOk result (1 ≤ self.new.room) }
        ensures err { OnErr result (self.old.room ≡ 0) }
        ensures same { self.new ≡ record self.old { room = self.new.room } }
        ensures room { self.old.room ≤ self.new.room }
        ensures history { KeepsNoted self.old self.new }
        ensures order { IsInOrder self.new }
    {
        Ok(self.closed.reserve(1)?)
    }

    /// Makes the current file a closed one of this number, and begins with an empty current file. It takes no memory.
    pub fn close_file(&mut self, file: u64)
        requires room { 1 ≤ self.old.room }
        requires given { 1 ≤ file }
        requires above { self.old.last < file }
        ensures closed { self.new.closed ≡ self.old.closed ++ record { file = file; highest = self.old.current } ∷ [] }
        ensures current { self.new.current ≡ [] }
        ensures last { self.new.last ≡ file }
        ensures room { self.new.room + 1 ≡ self.old.room }
        ensures numbers { SameNumbers self.old self.new }
        ensures history { KeepsNoted self.old self.new }
        ensures order { IsInOrder self.new }
    {
        let highest = self.current.take();
        self.closed.push_reserved(FileMark::new(file, highest));
        self.last = file;
    }

    /// Begins a flush of one family of a region, or of all where none is given, up to a number at or above all noted ones. It
    /// takes the memory that completing it needs; where it is refused nothing has begun.
    pub fn start_flush(
        &mut self,
        alloc: Global,
        region: u32,
        family: Option<&[u8]>,
        number: u64,
    ) -> Result<Flushing, NoMemory>
        requires region { region ≤ 64 }
        requires family { IfSome family (λ f. (1 ≤ length f.now) × (length f.now ≤ 127)) }
        requires none { get_or self.old.flushing region 0 ≡ 0 }
        requires given { 1 ≤ number }
        requires above { get_or self.old.noted region 0 ≤ number }
        ensures token { IfOk result (λ flushing. MatchOption family.entry (flushing ≡ record { region = region; family = []; number = number })
            (λ f. flushing ≡ record { region = region; family = f.now; number = number })) }
        ensures started { OnOk result (IsStarted self.old self.new region number) }
        ensures err { OnErr result (self.new ≡ self.old) }
        ensures history { KeepsNoted self.old self.new }
        ensures order { IsInOrder self.new }
    {
        let _ = &self.flushing;
        let flushing = match family {
            Some(family) => Flushing::of_family(alloc, region, family, number)?,
            None => Flushing::of_all(region, number),
        };
        self.begin(region, number);
        Ok(flushing)
    }

    // No number up to this one is noted from here on.
    fn begin(&mut self, region: u32, number: u64)
        requires region { region ≤ 64 }
        requires none { get_or self.old.flushing region 0 ≡ 0 }
        requires given { 1 ≤ number }
        requires above { get_or self.old.noted region 0 ≤ number }
        ensures started { IsStarted self.old self.new region number }
        ensures history { KeepsNoted self.old self.new }
        ensures order { IsInOrder self.new }
    {
        let place = region as usize;
        self.noted[place] = number;
        self.flushing[place] = number;
    }

    /// Ends a flush that came off: its family, or each family of its region, is flushed up to its number now. A flush of all
    /// lets go what was kept of single families. It takes no memory.
    pub fn complete_flush(&mut self, flushing: Flushing)
        requires { get_or self.old.flushing flushing.region 0 ≡ flushing.number }
        ensures completed { IsCompleted self.old self.new flushing }
        ensures history { KeepsNoted self.old self.new }
        ensures order { IsInOrder self.new }
    {
        let Spent {
            region,
            number,
            room,
        } = flushing.spend();
        let place = region as usize;
        let since = self.since.take(region);
        self.flushing[place] = 0;
        match room {
            Some(room) => {
                let MarkRoom { flushed, oldest } = room;
                self.flushed.families.put(region, flushed);
                self.oldest.put(region, oldest);
                self.oldest.pour(region, since);
            }
            None => {
                self.flushed.whole[place] = number;
                self.flushed.families.set(region, Marks::new());
                self.oldest.set(region, since);
            }
        }
    }

    /// A flush, of one family of a region or of all, that came off: its family, or each family of the region, is flushed up to
    /// a number at or above all noted ones. It takes no memory: the room was taken before.
    pub fn flush(&mut self, region: u32, number: u64, room: FlushRoom)
        requires region { region ≤ 64 }
        requires none { get_or self.old.flushing region 0 ≡ 0 }
        requires given { 1 ≤ number }
        requires above { get_or self.old.noted region 0 ≤ number }
        ensures flushed { IsFlushed self.old self.new (record { region = region; family = room; number = number }) }
        ensures history { KeepsNoted self.old self.new }
        ensures order { IsInOrder self.new }
    {
        let flushing = room.begin(region, number);
        self.begin(region, number);
        self.complete_flush(flushing);
    }

    /// Ends a flush that failed: what is flushed of its region stays. It takes no memory.
    pub fn abort_flush(&mut self, flushing: Flushing)
        requires { get_or self.old.flushing flushing.region 0 ≡ flushing.number }
        ensures aborted { IsAborted self.old self.new flushing }
        ensures history { KeepsNoted self.old self.new }
        ensures order { IsInOrder self.new }
    {
        let Spent { region, .. } = flushing.spend();
        let since = self.since.take(region);
        self.oldest.pour(region, since);
        self.flushing[region as usize] = 0;
    }

    /// The least noted number, of an entry with a cell of this family, above the family's flushed one.
    pub fn oldest_unflushed(&self, region: u32, family: &[u8]) -> Option<u64>
        requires { region ≤ 64 }
        ensures { (notes : List Note) → HasNoted self.now notes
            → MatchOption result (NoneAbove notes region family.now (flushed_at self.now region family.now))
            (λ n. IsLeastAbove notes region family.now (flushed_at self.now region family.now) n) }
    {
        match self.oldest.get(region, family) {
            0 => match self.since.get(region, family) {
                0 => None,
                number => Some(number),
            },
            number => Some(number),
        }
    }

    /// Each number of the region up to this one, of an entry with a cell of this family, is flushed.
    pub fn flushed(&self, region: u32, family: &[u8]) -> u64
        requires { region ≤ 64 }
        ensures { result ≡ flushed_at self.now region family.now }
    {
        self.flushed.of(region, family)
    }

    /// Each number of the region up to this one is flushed.
    pub fn whole(&self, region: u32) -> u64
        requires { region ≤ 64 }
        ensures { result ≡ get_or self.now.whole region 0 }
    {
        self.flushed.whole[region as usize]
    }

    /// The highest number noted of the region, or flushed.
    pub fn noted(&self, region: u32) -> u64
        requires { region ≤ 64 }
        ensures { result ≡ get_or self.now.noted region 0 }
    {
        self.noted[region as usize]
    }

    /// Whether all that a closed file has is flushed: of each family of each region its highest number there is at or below
    /// the flushed one. It looks at each family of the file once, and finds the file by a binary search.
    pub fn all_lower(&self, file: u64) -> bool
        requires { IsClosed self.now.closed file }
        ensures { (c : ClosedFile) → Contains self.now.closed c → c.file ≡ file → IsTrue result ↔ AreLower self.now c.highest }
    {
        let place = place_of(&self.closed, file);
        self.closed[place].is_lower(&self.flushed)
    }

    /// Forgets each closed file of which all is flushed, and gives their number. It looks at each file once, and takes no
    /// memory.
    pub fn forget_lower(&mut self) -> u64
        ensures closed { self.new.closed ≡ unflushed self.old }
        ensures tests { (c : ClosedFile) → Contains self.old.closed c
            → IsTrue (are_lower self.old.whole self.old.flushed c.highest) ↔ AreLower self.old c.highest }
        ensures count { length self.new.closed + result ≡ length self.old.closed }
        ensures current { self.new.current ≡ self.old.current }
        ensures last { self.new.last ≡ self.old.last }
        ensures room { self.old.room ≤ self.new.room }
        ensures numbers { SameNumbers self.old self.new }
        ensures history { KeepsNoted self.old self.new }
        ensures order { IsInOrder self.new }
    {
        let before = self.closed.len();
        let flushed = &self.flushed;
        self.closed.retain(|c| !c.is_lower(flushed));
        (before - self.closed.len()) as u64
    }

    /// The least closed file above this number, by a binary search. Files are numbered from 1, so 0 begins.
    pub fn next_closed(&self, after: u64) -> Option<u64>
        ensures order { IsInOrder self.now }
        ensures next { MatchOption result (NoneClosedAbove self.now.closed after) (λ file. IsNextClosed self.now.closed after file) }
    {
        match self.closed.get(place_above(&self.closed, after)) {
            Some(next) => Some(next.file()),
            None => None,
        }
    }
}
