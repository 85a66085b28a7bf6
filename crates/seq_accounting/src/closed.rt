//! Closed files, in rising number.

ghost use Rattle.std.specs.Prelude.{◌≡◌, ◌<◌, ◌≤◌, ◌↔◌, AllPairs, IsTrue};
ghost use Rattle.seq_accounting.specs.Accounts.{AreLowerBy, are_lower, IsBefore, IsClosed};
ghost use Rattle.seq_accounting.specs.Places.{IsPlaceOf, IsPlaceAbove};

use crate::flushed::FlushedNumbers;
use crate::marks::Marks;
use std::marker::Model;

/// A closed file with the highest number in it of each family of each region.
pub(crate) struct FileMark {
    file: u64,
    highest: Marks,
}

/// By hand, as that of kv_cell's `Octets`: the crates above call it.
impl Drop for FileMark {
    fn drop(self) {
        let FileMark {
            file: _,
            highest: _,
        } = self;
    }
}

impl Model for FileMark {
    ghost use Rattle.seq_accounting.specs.Accounts.{ClosedFile};

    ghost Value = { ClosedFile };

    ghost view = { λ c. record { file = c.file; highest = c.highest } };
}

impl FileMark {
    pub(crate) fn new(file: u64, highest: Marks) -> FileMark
        ensures { result ≡ record { file = file; highest = highest } }
    {
        FileMark { file, highest }
    }

    pub(crate) fn file(&self) -> u64
        ensures { result ≡ self.now.file }
    {
        self.file
    }

    /// Whether the highest number of each family of each region is at or below the flushed one.
    pub(crate) fn is_lower(&self, flushed: &FlushedNumbers) -> bool
        ensures lower { IsTrue result ↔ AreLowerBy flushed.now.whole flushed.now.families self.now.highest }
        ensures test { result ≡ are_lower flushed.now.whole flushed.now.families self.now.highest }
    {
        self.highest.is_lower(flushed)
    }
}

/// The place of this file, by a binary search.
pub(crate) fn place_of(closed: &[FileMark], file: u64) -> usize
    requires rising { AllPairs IsBefore closed.now }
    requires there { IsClosed closed.now file }
    ensures { IsPlaceOf closed.now file result }
{
    closed.partition_point(|c| c.file() < file)
}

/// The place of the first file above this number, or the length where there is none. It is a binary search.
pub(crate) fn place_above(closed: &[FileMark], after: u64) -> usize
    requires rising { AllPairs IsBefore closed.now }
    ensures { IsPlaceAbove closed.now after result }
{
    closed.partition_point(|c| c.file() <= after)
}
