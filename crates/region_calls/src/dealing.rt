//! How a handler's hands are dealt.

ghost use Rattle.std.specs.Prelude.{◌≡◌, ◌+◌, ◌-◌, ◌<◌, ◌≤◌, [], length, vec_capacity};
ghost use Rattle.region_calls.specs.Hands.{AreDeals};
ghost use Rattle.region_calls.specs.Passes.{AreNewHands};

use crate::hands::RegionHands;
use pass_calls::log_service::LogSeats;
use pass_calls::region_lock::RegionPass;

/// The next handler's hands of all regions, into the room for them.
pub(crate) fn deal<N: pass_calls::region_lock::LockNaming + region_versions::VersionsNaming>(
    regions: &mut Vec<RegionHands<N>>,
    seats: &LogSeats,
    room: Vec<RegionPass<N>>,
    handler: u32,
    left: u32,
) -> Vec<RegionPass<N>>
    requires deals { (0 < left) × AreDeals handler left regions.old.items }
    requires room { (room.items ≡ []) × (length regions.old.items ≤ vec_capacity room) }
    ensures hands { (length result.items ≡ length regions.old.items) × AreNewHands handler result.items }
    ensures deals { AreDeals (handler + 1) (left - 1) regions.new.items }
    ensures count { length regions.new.items ≡ length regions.old.items }
{
    let mut hands = room;
    // The contract alone uses these two.
    let _ = (handler, left);
    'dealing: for place in 0..regions.len() {
        hands.push_reserved(regions[place].next(seats));
    }
    hands
}
