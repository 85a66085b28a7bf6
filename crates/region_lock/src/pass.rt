//! A handler's pass of one region.

ghost use Rattle.std.specs.Prelude.{◌≡◌};

use crate::naming::LockNaming;
use hand_register::Hand;
use log_service::PutTally;
use region_state::Line;
use region_versions::Viewer;

/// What a pass has of one region: its hands of the region's two desks, its viewer, and what is counted of its puts.
pub struct RegionPass<N: LockNaming + region_versions::VersionsNaming> {
    pub hand: Hand<Line>,
    pub told: Hand<u64>,
    pub viewer: Viewer<N>,
    pub tally: PutTally,
    pub ghost of_desk: { hand.desk ≡ N.desk viewer.region },
    pub ghost of_spent: { told.desk ≡ N.spent viewer.region },
    pub ghost one: { told.number ≡ hand.number },
}

/// By hand, as that of `Locked`.
impl<N: LockNaming + region_versions::VersionsNaming> Drop for RegionPass<N> {
    fn drop(self) {
        let RegionPass {
            hand: _,
            told: _,
            viewer: _,
            tally: _,
        } = self;
    }
}

impl<N: LockNaming + region_versions::VersionsNaming> RegionPass<N> {
    /// Which region it is of.
    pub fn region(&self) -> u32
        ensures { result ≡ self.now.viewer.region }
    {
        self.viewer.region()
    }
}
