//! A beginning of a history without the name of its book.

ghost use Rattle.std.specs.Prelude.{◌≡◌, length};

use crate::book::Law;
use logbook::Seen;
use region_state::Line;

/// A beginning with no name: its book stands in its contract, and not in its type.
#[derive(Drop)]
pub struct Page {
    count: u64,
    pub seen: Seen<Line, u64, Law>,
    pub ghost counted: { count ≡ length seen.log },
}

impl Page {
    /// What was seen, with the number of its lines.
    pub(crate) fn new(count: u64, seen: &Seen<Line, u64, Law>) -> Page
        requires { count ≡ length seen.now.log }
        ensures { result.seen ≡ seen.now }
    {
        Page {
            count,
            seen: seen.again(),
        }
    }

    /// How many lines it has.
    pub fn len(&self) -> u64
        ensures { result ≡ length self.now.seen.log }
    {
        self.count
    }

    /// A copy.
    pub fn again(&self) -> Page
        ensures { result.seen ≡ self.now.seen }
    {
        Page::new(self.count, &self.seen)
    }
}
