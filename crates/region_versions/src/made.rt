//! How a region's versions are made.

ghost use Rattle.std.specs.Prelude.{◌≡◌, ◌<◌, ◌^◌, IfOk, length, replicate};
ghost use Rattle.std.specs.Arc.{arc_value};
ghost use Rattle.region_versions.specs.Shown.{cut, IsOf};
ghost use Rattle.region_versions.specs.Histories.{beginning};

use crate::front::Front;
use crate::naming::VersionsNaming;
use crate::shower::{Shower, SlotWriter, VersionParts};
use crate::sight::Sight;
use crate::slot::Showing;
use crate::viewer::{Viewer, ViewerList};
use kv_cell::NoMemory;
use left_right::writer::Writer;
use region_state::Version;
use std::alloc::{AllocError, Global};
use std::collections::VecDeque;
use std::sync::{Arc, Wait};

/// A writer that shows this version.
fn writer_of<N: VersionsNaming>(
    alloc: Global,
    first: Showing,
    viewers: u32,
) -> Result<SlotWriter<N>, AllocError>
    requires viewers { 0 < viewers }
    requires of { IsOf N.book N.region_base first }
    ensures { IfOk result (λ w. cut w.desk.shown.value ≡ cut first) }
{
    let version = Arc::try_clone(&first.version)?;
    let second = Showing {
        region: first.region,
        version,
        page: first.page.again(),
    };
    Writer::new(alloc, first, second, viewers as usize)
}

/// So many viewers of a writer, which have seen this.
fn viewers_of<N: VersionsNaming>(
    alloc: Global,
    writer: &SlotWriter<N>,
    sight: &Sight<N>,
    viewers: u32,
) -> Result<ViewerList<N>, AllocError>
    ensures { IfOk result (λ list. list.viewers.items ≡ replicate viewers sight.now) }
{
    let mut list = VecDeque::new(alloc);
    for _ in 0..viewers {
        list.reserve(1)?;
        let reader = writer.factory().reader()?;
        list.push_back_reserved(Viewer::of(reader, sight.again()));
    }
    Ok(ViewerList { viewers: list })
}

/// One that shows a region's versions and those that view them, at a first version.
pub fn versions<N: VersionsNaming, R: Wait + Drop>(
    rt: R,
    alloc: Global,
    first: Arc<Version, Global>,
    front: &Front<N>,
    viewers: u32,
) -> Result<VersionParts<N, R>, NoMemory>
    requires viewers { 0 < viewers }
    requires base { (arc_value first).base ≡ N.region_base front.now.region }
    requires cut { (arc_value first).cut ≡ front.now.lines }
    ensures shower { IfOk result (λ p. p.shower.shown ≡ front.now) }
    ensures viewers { IfOk result (λ p. p.viewers.viewers.items ≡ replicate viewers front.now) }
{
    let sight = Sight::of(front.again(), &first);
    let showing = Showing {
        region: front.region(),
        version: first,
        page: front.page(),
    };
    let writer = writer_of::<N>(alloc, showing, viewers)?;
    match viewers_of(alloc, &writer, &sight, viewers) {
        Ok(list) => {
            Ok(VersionParts {
                shower: Shower::of(rt, writer, sight),
                viewers: list,
            })
        }
        Err(_) => {
            drop(writer.take(&rt));
            Err(NoMemory)
        }
    }
}
