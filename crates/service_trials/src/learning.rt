//! What the one that shows tells, and who learns it.

ghost use Rattle.std.specs.Prelude.{◌≡◌, length};
ghost use Rattle.std.specs.List.{All};
ghost use Rattle.service_trials.specs.AllShown.{IsAllShown};

use crate::sharing::{Tried, try_region};
use crate::showing::show_next;
use crate::viewing::view_point;
use region_state::RegionState;
use region_versions::{History, Shower, VersionsNaming, Viewer};
use std::alloc::Global;
use std::process::Abort;
use std::sync::Wait;
use std::test::Fail;

/// One viewer views. The two others look at nothing and learn what is told, one of them a version late.
pub(crate) fn tell_two<N: VersionsNaming, R: Abort, W: Wait + Drop>(
    rt: &R,
    alloc: Global,
    state: &mut RegionState,
    history: &mut History<N>,
    shower: &mut Shower<N, W>,
    viewers: &mut [Viewer<N>],
)
    requires shown { IsAllShown (N.region_base history.old.region) state.old history.old shower.old.shown }
    requires three { length viewers.old ≡ 3 }
    requires region { All (λ v. v.region ≡ history.old.region) viewers.old }
{
    let [one, two, idle] = viewers else {
        unreachable!()
    };
    assert!(rt; show_next(alloc, state, history, shower, 1).is_ok());
    let early = shower.tell();
    let again = shower.tell();
    assert!(rt; show_next(alloc, state, history, shower, 2).is_ok());
    assert!(rt; view_point(one, 0) == 2 && two.seen() == 0 && idle.seen() == 0);
    two.learn(shower.tell());
    idle.learn(early);
    assert!(rt; one.seen() == 2 && two.seen() == 2 && idle.seen() == 1);
    // What is told late takes nothing back.
    two.learn(again);
    assert!(rt; two.seen() == 2 && view_point(two, 0) == 2);
}

#[test]
fn what_is_told_is_seen(rt: HostRuntime) -> Result<(), Fail> {
    try_region(&rt, rt.alloc(), Tried::Telling)
}
