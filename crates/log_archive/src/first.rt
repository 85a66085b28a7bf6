//! The first file that may go.

ghost use Rattle.std.specs.Prelude.{◌≤◌, Contains, MatchOption};
ghost use Rattle.seq_accounting.specs.Accounts.{ClosedFile};
ghost use Rattle.log_archive.specs.First.{NoneToGo, IsFirstToGo};

use seq_accounting::Accounting;

/// The least closed file above this number of which all is flushed; 0 begins, since files are numbered from 1. It takes no
/// memory, and looks at the closed files above the number in rising number, up to the one that it gives, and at no entry:
/// for each file one binary search for it and one pass over the regions.
pub fn first_to_go(accounting: &Accounting, above: u64) -> Option<u64>
    ensures first { MatchOption result (NoneToGo accounting.now above) (λ file. IsFirstToGo accounting.now above file) }
    ensures given { (c : ClosedFile) → Contains accounting.now.closed c → 1 ≤ c.file }
{
    let mut after = above;
    while let Some(file) = accounting.next_closed(after) {
        if accounting.all_lower(file) {
            return Some(file);
        }
        after = file;
    }
    None
}
