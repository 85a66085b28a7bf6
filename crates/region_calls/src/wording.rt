//! Regions get the words of a log that was closed.

ghost use Rattle.std.specs.Prelude.{◌≡◌, ◌≤◌, ◌<◌, ◌*◌, ◌+◌, ◌^◌, ℕ, [], length, Some, slice_get, slice_index, vec_capacity};
ghost use Rattle.pass_calls.specs.log_service.Closed.{synced_in, stored_in, closed_in};
ghost use Rattle.region_calls.specs.Closes.{AreWordsIn};
ghost use Rattle.region_calls.specs.Wordings.{IsWorded};

use crate::apart::{Taken, sure};
use crate::closed::ClosedRegion;
use std::sync::Wait;

/// A region with its words, of those of a log of so many regions. The synced word and the stored one lie in the journal: where one doesn't,
/// which no run shows, it does not return.
fn word<S: Wait>(rt: &S, taken: Taken, words: &[u64], regions: usize, place: usize) -> ClosedRegion
    requires words { (length words.now ≡ 3 * regions) × (place < regions) × (regions ≤ 64) }
    ensures { IsWorded regions words.now place taken.base taken.lines.items result }
{
    let Taken { base, lines } = taken;
    let synced = words[place];
    let stored = words[regions + place];
    let count = lines.len() as u64;
    let within = base.last <= stored && stored - base.last <= count;
    sure(rt, within && synced.saturating_sub(base.last) <= count);
    ClosedRegion {
        region: place as u32 + 1,
        base,
        lines,
        synced,
        stored,
        closed: words[regions + regions + place],
    }
}

/// All regions with their words, in the room for them.
pub(crate) fn word_all<S: Wait>(
    rt: &S,
    taken: Vec<Taken>,
    words: &[u64],
    room: Vec<ClosedRegion>,
) -> Vec<ClosedRegion>
    requires words { (length words.now ≡ 3 * length taken.items) × (length taken.items ≤ 64) }
    requires room { (room.items ≡ []) × (length taken.items ≤ vec_capacity room) }
    ensures each { (k : ℕ) (c : ClosedRegion) → slice_get result.items k ≡ Some c
        → (t : Taken) × (slice_get taken.items k ≡ Some t) × IsWorded (length taken.items) words.now k t.base t.lines.items c }
    ensures count { length result.items ≡ length taken.items }
{
    let regions = taken.len();
    let mut worded = room;
    'wording: for one in taken {
        let place = worded.len();
        worded.push_reserved(word(rt, one, words, regions, place));
    }
    worded
}

/// Each region's stored word is at or above its base's last number, of those of a log of so many regions. Where one isn't, which no run
/// shows, it does not return.
pub(crate) fn sure_stored<S: Wait>(rt: &S, lasts: &[u64], words: &[u64], regions: usize)
    requires { (length words.now ≡ 3 * regions) × (regions ≤ length lasts.now) × (regions ≤ 64) }
    ensures { (k : ℕ) → k < regions → slice_index lasts.now k ≤ stored_in regions words.now (k + 1) }
{
    'checking: for place in 0..regions {
        let stored = lasts[place] <= words[regions + place];
        sure(rt, stored);
    }
}
