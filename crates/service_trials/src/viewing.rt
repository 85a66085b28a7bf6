//! Two threads view while a third shows.

ghost use Rattle.std.specs.Prelude.{◌≡◌, length};
ghost use Rattle.service_trials.specs.AllShown.{IsAllShown};

use crate::sharing::{Tried, try_region};
use crate::showing::show_next;
use kv_cell::NoMemory;
use region_state::RegionState;
use region_versions::{History, Shower, VersionsNaming, Viewer};
use std::alloc::Global;
use std::process::Abort;
use std::sync::Wait;
use std::test::Fail;
use std::thread;
use std::thread::{Threads, join};

/// How often a thread views at most, until it finds the third version.
const VIEWS: u32 = 100_000;

/// Shows three versions, with the points 1, 2 and 3.
fn show_three<N: VersionsNaming, W: Wait + Drop>(
    alloc: Global,
    state: &mut RegionState,
    history: &mut History<N>,
    shower: &mut Shower<N, W>,
) -> Result<(), NoMemory>
    requires shown { IsAllShown (N.region_base history.old.region) state.old history.old shower.old.shown }
{
    show_next(alloc, state, history, shower, 1)?;
    show_next(alloc, state, history, shower, 2)?;
    show_next(alloc, state, history, shower, 3)
}

/// The point of what it views, or this one where memory is refused.
pub(crate) fn view_point<N: VersionsNaming>(viewer: &mut Viewer<N>, otherwise: u64) -> u64 {
    match viewer.view() {
        Ok(version) => version.point(),
        Err(_) => otherwise,
    }
}

/// Views until it finds the third version, and says whether a point fell.
fn view_many<N: VersionsNaming>(viewer: &mut Viewer<N>) -> bool {
    let mut fell = false;
    let mut last = 0;
    for _ in 0..VIEWS {
        let point = view_point(viewer, last);
        fell = fell || point < last;
        last = point;
        if last == 3 {
            break;
        }
        thread::yield_now();
    }
    fell
}

/// Views in two threads.
fn view_both<N: VersionsNaming + Send + Sync, R: Threads + Sync>(
    rt: &R,
    one: &mut Viewer<N>,
    two: &mut Viewer<N>,
) -> (bool, bool) {
    join(rt, || view_many(one), || view_many(two))
}

/// Views in two threads, and shows in this one.
fn view_and_show<N: VersionsNaming + Send + Sync, R: Threads + Sync, W: Wait + Drop>(
    rt: &R,
    alloc: Global,
    state: &mut RegionState,
    history: &mut History<N>,
    shower: &mut Shower<N, W>,
    one: &mut Viewer<N>,
    two: &mut Viewer<N>,
) -> ((bool, bool), Result<(), NoMemory>)
    requires shown { IsAllShown (N.region_base history.old.region) state.old history.old shower.old.shown }
{
    join(
        rt,
        || view_both(rt, one, two),
        || show_three(alloc, state, history, shower),
    )
}

/// Nothing is told to a viewer, so that it finds the third version by its own looks alone.
pub(crate) fn view_three<
    N: VersionsNaming + Send + Sync,
    R: Threads + Abort + Sync,
    W: Wait + Drop,
>(
    rt: &R,
    alloc: Global,
    state: &mut RegionState,
    history: &mut History<N>,
    shower: &mut Shower<N, W>,
    viewers: &mut [Viewer<N>],
)
    requires shown { IsAllShown (N.region_base history.old.region) state.old history.old shower.old.shown }
    requires three { length viewers.old ≡ 3 }
{
    let [one, two, idle] = viewers else {
        unreachable!()
    };
    let (fell, shown) = view_and_show(rt, alloc, state, history, shower, one, two);
    assert!(rt; shown.is_ok());
    assert!(rt; matches!(fell, (false, false)));
    assert!(rt; view_point(one, 0) == 3 && view_point(two, 0) == 3);
    assert!(rt; one.point() == 3 && two.seen() == 3);
    assert!(rt; idle.seen() == 0 && idle.point() == 3 && idle.seen() == 3);
}

#[test]
fn three_versions_while_two_threads_view(rt: HostRuntime) -> Result<(), Fail> {
    try_region(&rt, rt.alloc(), Tried::Viewing)
}
