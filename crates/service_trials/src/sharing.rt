//! A region with its history and the one that shows its versions: made here, lent to a trial, and dropped here, at one place.

ghost use Rattle.std.specs.Prelude.{◌≡◌, []};
ghost use Rattle.std.specs.Arc.{arc_value};

use crate::learning::tell_two;
use crate::showing::empty_region;
use crate::viewing::view_three;
use region_state::{RegionState, Version};
use region_versions::{NewHistory, VersionParts, VersionsNaming, versions};
use std::alloc::Global;
use std::marker::Brand;
use std::process::Abort;
use std::sync::{Arc, Wait};
use std::test::Fail;
use std::thread::Threads;

/// What is tried.
#[derive(Clone, Copy)]
pub(crate) enum Tried {
    Telling,
    Viewing,
}

/// Shows the first version of an empty region to three viewers, and tries it.
fn run<N: VersionsNaming + Send + Sync, R: Threads + Wait + Abort + Sync>(
    rt: &R,
    alloc: Global,
    opened: NewHistory,
    state: &mut RegionState,
    first: Arc<Version, Global>,
    trial: Tried,
)
    requires book { opened.seen.book ≡ N.book 1 }
    requires base { state.old.base ≡ N.region_base 1 }
    requires lines { state.old.lines ≡ [] }
    requires first { ((arc_value first).base ≡ N.region_base 1) × ((arc_value first).cut ≡ []) }
{
    let mut history = opened.named::<N>(1);
    let Ok(
        VersionParts {
            mut shower,
            mut viewers,
        },
    ) = versions::<N, &R>(rt, alloc, first, history.front(), 3)
    else {
        panic!(rt; "memory is ample")
    };
    let each = viewers.viewers.make_contiguous();
    match trial {
        Tried::Telling => tell_two(rt, alloc, state, &mut history, &mut shower, each),
        Tried::Viewing => view_three(rt, alloc, state, &mut history, &mut shower, each),
    }
}

/// Tries an empty region.
pub(crate) fn try_region<R: Threads + Wait + Abort + Sync>(
    rt: &R,
    alloc: Global,
    trial: Tried,
) -> Result<(), Fail> {
    let mut state = empty_region(alloc)?;
    let first = state.next_version(alloc)?;
    run::<Brand, R>(rt, alloc, NewHistory::new(), &mut state, first, trial);
    Ok(())
}
