//! The book that a region's history is kept in: one word, the number of lines.

ghost use Rattle.std.specs.Prelude.{◌≡◌, []};
ghost use Rattle.region_versions.specs.Histories.{head_of, beginning};

use crate::front::Front;
use crate::history::History;
use crate::naming::VersionsNaming;
use logbook::{Gain, Plain, Play, Rule, Seen, Start, Word};
use region_state::Line;

/// The rule of a book.
pub struct Law;

impl Rule<Line, u64> for Law {
    ghost use Rattle.std.specs.Prelude.{[]};
    ghost use base.Fml.{ftrue};
    ghost use Rattle.region_versions.specs.Histories.{IsKept};

    ghost holds = { λ cells log. IsKept cells log };

    ghost first = { [] };

    ghost hinted = { λ n log. Unit {0} };

    ghost shows = { λ log. [] };

    ghost keeps = { λ names log. ftrue };

    ghost moves = { λ ask before after answer. Unit {0} };
}

/// Callers trade nothing.
pub struct Nothing;

impl Gain<Line, u64> for Nothing {
    ghost use base.Fml.{ftrue};

    ghost after = { λ names about answer. ftrue };
}

/// A step that adds a line.
pub struct Add;

impl Play<Line, u64> for Add {
    ghost use Rattle.region_versions.specs.Histories.{Adds};

    ghost then = { Adds };
}

impl Plain<Line, Line, u64> for Add {
    ghost use Rattle.std.specs.Prelude.{None};

    ghost ask = { λ line. line };

    ghost state = { λ line. None };
}

/// A book with an empty history, which has no name yet.
#[derive(Drop)]
pub struct NewHistory {
    head: Word<Line, u64, Law>,
    pub seen: Seen<Line, u64, Law>,
    pub ghost empty: { seen.log ≡ [] },
    pub ghost head_is: { head ≡ head_of seen.book },
}

impl NewHistory {
    /// A new book.
    pub fn new() -> NewHistory {
        let (seen, mut first, _second) = Seen::open(Start::alone(), 0, 0);
        NewHistory {
            head: Word::tracked(0, &mut first),
            seen,
        }
    }

    /// The history of a region that is in this book.
    pub fn named<N: VersionsNaming>(self, region: u32) -> History<N>
        requires { self.seen.book ≡ N.book region }
        ensures { result ≡ beginning region [] }
    {
        let NewHistory { head, seen } = self;
        History::new(head, Front::empty(region, seen))
    }
}
