//! Regions are taken apart.

ghost use Rattle.std.specs.Prelude.{◌≡◌, ◌≢◌, ◌≤◌, ◌<◌, ◌+◌, ℕ, [], length, map, IsTrue, Some, None, List, slice_get, slice_index, slice_set, vec_capacity};
ghost use Rattle.append_ring.specs.Parts.{AreOut};
ghost use Rattle.region_model.specs.Journal.{Base as TheBase};
ghost use Rattle.region_model.specs.Lines.{Line as TheLine};
ghost use Rattle.pass_calls.specs.log_service.Places.{ServiceId};
ghost use Rattle.region_calls.specs.Closes.{IsTaken};
ghost use Rattle.region_calls.specs.Deals.{AllOf};
ghost use Rattle.region_calls.specs.Passes.{knows};

use crate::hands::RegionHands;
use crate::meeting::meet_all;
use crate::pass::Pass;
use append_ring::RingKeys;
use mem_segments::Base;
use pass_calls::log_service::Item;
use pass_calls::region_lock::{Locked, RegionPass};
use region_state::Line;
use std::sync::{Mutex, Wait};

/// What a region leaves: its base and its journal.
#[derive(Drop)]
pub(crate) struct Taken {
    pub(crate) base: Base,
    pub(crate) lines: Vec<Line>,
}

impl Taken {
    /// The last number of its base. The rest is let go.
    fn last(self) -> u64
        ensures { result ≡ self.base.last }
    {
        self.base.last
    }
}

/// The hands of passes that weren't handed out, and the room for them, are let go: in a function of its own, since their drop is written out
/// where it is.
pub(crate) fn let_hands_go<
    N: pass_calls::region_lock::LockNaming + region_versions::VersionsNaming,
>(hands: Vec<RegionHands<N>>, rooms: Vec<Vec<RegionPass<N>>>) {
    let _all = (hands, rooms);
}

/// This holds. Where it doesn't, which no run shows, it waits for ever: it has no right answer, and a wrong one would be worse.
pub(crate) fn sure<S: Wait>(rt: &S, holds: bool)
    ensures { IsTrue holds }
{
    if !holds {
        for _ in rt.forever() {}
        unreachable!()
    }
}

/// Takes a region apart, in whose journal all passes meet, and puts its key of the ring back.
fn take_region<
    N: pass_calls::region_lock::LockNaming
        + pass_calls::log_service::ServiceNaming
        + region_versions::VersionsNaming,
    R: Wait + Drop,
    S: Wait,
>(
    rt: &S,
    locked: Locked<N, R>,
    passes: &mut Vec<Pass<N>>,
    places: &mut RingKeys<Item>,
    place: u32,
) -> Taken
    requires place { (place < 64) × (slice_get places.old place ≡ Some None) }
    requires passes { (the : ServiceId) × AllOf the passes.old.items × (place < the.regions) }
    ensures knows { map knows passes.new.items ≡ map knows passes.old.items }
    ensures of { (the : ServiceId) → AllOf the passes.old.items → AllOf the passes.new.items }
    ensures taken { IsTaken N.region_base N.handlers N.ring (map knows passes.old.items) places.new place result.base result.lines.items }
    ensures others { (j : ℕ) → j ≢ place → slice_get places.new j ≡ slice_get places.old j }
    ensures count { length places.new ≡ length places.old }
{
    let mut locked = locked;
    let here = locked.region() == place + 1;
    sure(rt, here);
    let met = meet_all(&mut locked, passes, place as usize);
    sure(rt, met);
    let (base, lines, pass) = locked.into_parts();
    places.put_back(pass);
    Taken { base, lines }
}

/// Takes all regions apart, in the room for them.
pub(crate) fn take_all<
    N: pass_calls::region_lock::LockNaming
        + pass_calls::log_service::ServiceNaming
        + region_versions::VersionsNaming,
    R: Wait + Drop,
    S: Wait,
>(
    rt: &S,
    regions: Vec<Mutex<Locked<N, R>>>,
    passes: &mut Vec<Pass<N>>,
    places: &mut RingKeys<Item>,
    room: Vec<Taken>,
) -> Vec<Taken>
    requires places { AreOut (length places.old) places.old × (length places.old ≡ length regions.items) × (length regions.items ≤ 64) }
    requires passes { (the : ServiceId) × AllOf the passes.old.items × (length regions.items ≤ the.regions) }
    requires room { (room.items ≡ []) × (length regions.items ≤ vec_capacity room) }
    ensures knows { map knows passes.new.items ≡ map knows passes.old.items }
    ensures of { (the : ServiceId) → AllOf the passes.old.items → AllOf the passes.new.items }
    ensures taken { (k : ℕ) (t : Taken) → slice_get result.items k ≡ Some t
        → IsTaken N.region_base N.handlers N.ring (map knows passes.old.items) places.new k t.base t.lines.items }
    ensures count { (length result.items ≡ length regions.items) × (length places.new ≡ length regions.items) }
{
    let mut taken = room;
    let mut place: u32 = 0;
    'taking: for lock in regions {
        let one = take_region(rt, lock.into_inner(), passes, places, place);
        taken.push_reserved(one);
        place += 1;
    }
    taken
}

/// Writes a number at a place.
fn note(lasts: &mut [u64], place: usize, last: u64)
    requires { place < length lasts.old }
    ensures { lasts.new ≡ slice_set lasts.old place last }
{
    lasts[place] = last;
}

/// Takes all regions apart, and lets go what they leave but their bases' last numbers, for which there is room.
pub(crate) fn let_all_go<
    N: pass_calls::region_lock::LockNaming
        + pass_calls::log_service::ServiceNaming
        + region_versions::VersionsNaming,
    R: Wait + Drop,
    S: Wait,
>(
    rt: &S,
    regions: Vec<Mutex<Locked<N, R>>>,
    passes: &mut Vec<Pass<N>>,
    places: &mut RingKeys<Item>,
    lasts: &mut [u64],
)
    requires places { AreOut (length places.old) places.old × (length places.old ≡ length regions.items) × (length regions.items ≤ 64) }
    requires passes { (the : ServiceId) × AllOf the passes.old.items × (length regions.items ≤ the.regions) }
    requires room { 64 ≤ length lasts.old }
    ensures knows { map knows passes.new.items ≡ map knows passes.old.items }
    ensures of { (the : ServiceId) → AllOf the passes.old.items → AllOf the passes.new.items }
    ensures taken { (k : ℕ) → k < length regions.items
        → (base : TheBase) × (lines : List TheLine)
        × IsTaken N.region_base N.handlers N.ring (map knows passes.old.items) places.new k base lines × (slice_index lasts.new k ≡ base.last) }
    ensures count { (length places.new ≡ length regions.items) × (length lasts.new ≡ length lasts.old) }
{
    let mut place: u32 = 0;
    'letting: for lock in regions {
        let one = take_region(rt, lock.into_inner(), passes, places, place);
        let last = one.last();
        note(lasts, place as usize, last);
        place += 1;
    }
}
