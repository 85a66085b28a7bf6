//! The hands of one region that no pass has yet.

ghost use Rattle.std.specs.Prelude.{◌≡◌, ◌+◌, ◌-◌, ◌<◌};
ghost use Rattle.region_calls.specs.Hands.{deal_of};
ghost use Rattle.region_calls.specs.Passes.{IsNewHand};

use hand_register::HandList;
use pass_calls::log_service::LogSeats;
use pass_calls::region_lock::RegionPass;
use region_state::Line;
use region_versions::ViewerList;
use std::marker::Model;

/// The hands of a region's two desks, and its viewers, handler after handler. Contracts see the region, the next handler and how many are
/// left.
#[derive(Drop)]
pub(crate) struct RegionHands<
    N: pass_calls::region_lock::LockNaming + region_versions::VersionsNaming,
> {
    pub(crate) region: u32,
    pub(crate) next: u32,
    pub(crate) left: u32,
    pub(crate) ours: HandList<Line>,
    pub(crate) theirs: HandList<u64>,
    pub(crate) viewers: ViewerList<N>,
}

impl<N: pass_calls::region_lock::LockNaming + region_versions::VersionsNaming> Model
    for RegionHands<N> {
    ghost use Rattle.region_calls.specs.Hands.{Deal, deal_of, AreLeft};

    ghost Value = { Deal };

    ghost view = { λ h. deal_of h.region h.next h.left };

    ghost invariant = { λ h. AreLeft (N.desk h.region) (N.spent h.region) (deal_of h.region h.next h.left) h.ours h.theirs h.viewers.viewers.items };
}

impl<N: pass_calls::region_lock::LockNaming + region_versions::VersionsNaming> RegionHands<N> {
    /// The next handler's, of those that these seats are for.
    pub(crate) fn next(&mut self, seats: &LogSeats) -> RegionPass<N>
        requires { 0 < self.old.left }
        ensures hand { IsNewHand self.old.region self.old.next result }
        ensures left { self.new ≡ deal_of self.old.region (self.old.next + 1) (self.old.left - 1) }
    {
        let Some(hand) = self.ours.next() else {
            unreachable!()
        };
        let Some(told) = self.theirs.next() else {
            unreachable!()
        };
        let Some(viewer) = self.viewers.next() else {
            unreachable!()
        };
        self.next += 1;
        self.left -= 1;
        RegionPass {
            hand,
            told,
            viewer,
            tally: seats.put_tally(),
        }
    }
}
