//! Beginnings of a region's history.

ghost use Rattle.std.specs.Prelude.{◌≡◌, ◌+◌, ◌<◌, ◌≤◌, ◌^◌, ◌++◌, ◌∷◌, [], length, MatchBool};
ghost use mathlib.Core.List.{IsPrefix};
ghost use Rattle.region_versions.specs.Histories.{head_of, beginning, IsLonger};

use crate::book::{Add, Law, Nothing};
use crate::naming::VersionsNaming;
use crate::page::Page;
use logbook::{Offer, Seen, Word};
use region_state::Line;
use std::marker::{Model, PhantomData};

/// A beginning of a region's history that was seen. Contracts see the region and the lines.
#[derive(Drop)]
pub struct Front<N: VersionsNaming> {
    region: u32,
    count: u64,
    seen: Seen<Line, u64, Law>,
    of: PhantomData<N>,
}

impl<N: VersionsNaming> Model for Front<N> {
    ghost use Rattle.std.specs.Prelude.{◌≡◌, length};
    ghost use Rattle.region_versions.specs.Histories.{Beginning, coded_beginning, beginning};

    ghost Value = { Beginning };

    ghost coded = { coded_beginning };

    ghost view = { λ f. beginning f.region f.seen.log };

    ghost invariant = { λ f. (f.count ≡ length f.seen.log) × (f.seen.book ≡ N.book f.region) };
}

impl<N: VersionsNaming> Front<N> {
    /// The beginning without a line.
    pub(crate) fn empty(region: u32, seen: Seen<Line, u64, Law>) -> Front<N>
        requires book { seen.book ≡ N.book region }
        requires empty { seen.log ≡ [] }
        ensures { result ≡ beginning region [] }
    {
        Front {
            region,
            count: 0,
            seen,
            of: PhantomData,
        }
    }

    /// Of which region it is.
    pub fn region(&self) -> u32
        ensures { result ≡ self.now.region }
    {
        self.region
    }

    /// How many lines it has.
    pub fn len(&self) -> u64
        ensures { result ≡ length self.now.lines }
    {
        self.count
    }

    /// A copy.
    pub fn again(&self) -> Front<N>
        ensures { result ≡ self.now }
    {
        Front {
            region: self.region,
            count: self.count,
            seen: self.seen.again(),
            of: PhantomData,
        }
    }

    /// Of two beginnings of one history the one with no more lines begins the other.
    pub fn compare(&self, other: &Front<N>)
        requires { self.now.region ≡ other.now.region }
        ensures this { length self.now.lines ≤ length other.now.lines → IsPrefix self.now.lines other.now.lines }
        ensures that { length other.now.lines ≤ length self.now.lines → IsPrefix other.now.lines self.now.lines }
    {
        let mut both = self.seen.again();
        both.learn(&other.seen);
    }

    /// The same without its name.
    pub fn page(&self) -> Page
        ensures { (result.seen.log ≡ self.now.lines) × (result.seen.book ≡ N.book self.now.region) }
    {
        Page::new(self.count, &self.seen)
    }

    /// A page of the region's book.
    pub fn of_page(region: u32, page: &Page) -> Front<N>
        requires { page.now.seen.book ≡ N.book region }
        ensures { result ≡ beginning region page.now.seen.log }
    {
        Front {
            region,
            count: page.len(),
            seen: page.seen.again(),
            of: PhantomData,
        }
    }
}

/// Adds a line to all that was seen, and says whether it did. It did not where the history is longer.
pub(crate) fn append<N: VersionsNaming>(
    head: &Word<Line, u64, Law>,
    front: &mut Front<N>,
    line: &Line,
) -> bool
    requires head { head.now ≡ head_of (N.book front.old.region) }
    requires room { length front.old.lines < 2 ^ 62 }
    ensures region { front.new.region ≡ front.old.region }
    ensures lines { MatchBool result (front.new.lines ≡ front.old.lines ++ line.now ∷ []) (IsLonger front.old.lines front.new.lines) }
{
    let mut offer: Offer<Line, u64, Law, Nothing> = front.seen.plain::<Nothing, Line, Add>(line);
    let mut pen = front.seen.no_pen();
    let count = front.count;
    let found = head.compare_exchange::<Add, Nothing>(
        count,
        count + 1,
        &mut front.seen,
        &mut offer,
        &mut pen,
    );
    front.count = if found == count { count + 1 } else { found };
    found == count
}
