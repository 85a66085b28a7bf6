//! The history of a region's completed lines.

ghost use Rattle.std.specs.Prelude.{◌≡◌, ◌<◌, ◌^◌, length};
ghost use Rattle.region_versions.specs.Histories.{head_of, added};

use crate::book::Law;
use crate::front::{Front, append};
use crate::naming::VersionsNaming;
use logbook::Word;
use region_state::Line;
use std::marker::Model;

/// A region's history, for the one who adds to it. Contracts see the region and all lines that were added.
#[derive(Drop)]
pub struct History<N: VersionsNaming> {
    head: Word<Line, u64, Law>,
    front: Front<N>,
}

impl<N: VersionsNaming> Model for History<N> {
    ghost use Rattle.std.specs.Prelude.{◌≡◌};
    ghost use Rattle.region_versions.specs.Histories.{Beginning, coded_beginning, head_of};

    ghost Value = { Beginning };

    ghost coded = { coded_beginning };

    ghost view = { λ h. h.front };

    ghost invariant = { λ h. h.head ≡ head_of (N.book h.front.region) };
}

impl<N: VersionsNaming> History<N> {
    /// A history without a line, and the word that counts its lines.
    pub(crate) fn new(head: Word<Line, u64, Law>, front: Front<N>) -> History<N>
        requires { head ≡ head_of (N.book front.region) }
        ensures { result ≡ front }
    {
        History { head, front }
    }

    /// How many lines it has.
    pub fn len(&self) -> u64
        ensures { result ≡ length self.now.lines }
    {
        self.front.len()
    }

    /// The beginning so far.
    pub fn front(&self) -> &Front<N>
        ensures { result.now ≡ self.now }
    {
        &self.front
    }

    /// Adds a line, and says whether it did. It did not where another one added to the history, which no run shows; then
    /// nothing changed.
    pub fn push(&mut self, line: &Line) -> bool
        requires { length self.old.lines < 2 ^ 62 }
        ensures { self.new ≡ added result line.now self.old }
    {
        let mut front = self.front.again();
        if !append(&self.head, &mut front, line) {
            return false;
        }
        self.front = front;
        true
    }
}
