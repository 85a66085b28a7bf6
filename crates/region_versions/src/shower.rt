//! The one that shows.

ghost use Rattle.std.specs.Prelude.{◌≡◌, OnErr, OnOk, MatchResult, Some};
ghost use Rattle.std.specs.Arc.{arc_value};
ghost use mathlib.Core.List.{IsPrefix};
ghost use Rattle.region_versions.specs.Shown.{cut, IsOf};
ghost use Rattle.region_versions.specs.Histories.{beginning};

use crate::front::Front;
use crate::naming::VersionsNaming;
use crate::rule::{Monotone, Seen, Sees};
use crate::sight::Sight;
use crate::slot::Showing;
use crate::viewer::{Viewer, ViewerList};
use kv_cell::NoMemory;
use left_right::writer::Writer;
use region_state::Version;
use std::alloc::{AllocError, Global};
use std::mem;
use std::sync::{Arc, Wait};

pub(crate) type SlotWriter<N> = Writer<Showing, Showing, Seen, Monotone<N>>;

/// What a shower tells.
#[derive(Drop)]
pub struct Told<N: VersionsNaming> {
    pub sight: Sight<N>,
}

/// One that shows a region's versions. Contracts see `shown`, the region and the lines of the version that is shown. It
/// keeps the handle `rt`, since its drop waits for the viewers.
pub struct Shower<N: VersionsNaming, R: Wait + Drop> {
    rt: R,
    writer: Option<SlotWriter<N>>,
    pub shown: Sight<N>,
    ghost tied: { (w : _) → writer ≡ Some w → cut w.desk.shown.value ≡ shown.lines },
}

/// Shows a version.
fn publish<N: VersionsNaming, R: Wait>(
    rt: &R,
    mut writer: SlotWriter<N>,
    next: Showing,
) -> (SlotWriter<N>, Result<(), AllocError>)
    requires later { IsPrefix (cut writer.desk.shown.value) (cut next) }
    requires of { IsOf N.book N.region_base next }
    ensures { MatchResult result.1 (λ _. cut result.0.desk.shown.value ≡ cut next) (λ _. cut result.0.desk.shown.value ≡ cut writer.desk.shown.value) }
{
    match writer.append(next) {
        Ok(()) => writer.publish_as::<Sees<N>, R>(rt),
        Err(_) => (writer, Err(AllocError)),
    }
}

impl<N: VersionsNaming, R: Wait + Drop> Shower<N, R> {
    pub(crate) fn of(rt: R, writer: SlotWriter<N>, shown: Sight<N>) -> Shower<N, R>
        requires { cut writer.desk.shown.value ≡ shown.lines }
        ensures { result.shown ≡ shown }
    {
        Shower {
            rt,
            writer: Some(writer),
            shown,
        }
    }

    /// Shows a version of the region, whose lines are this beginning of its history.
    pub fn show(&mut self, version: Arc<Version, Global>, front: &Front<N>) -> Result<(), NoMemory>
        requires region { front.now.region ≡ self.old.shown.region }
        requires base { (arc_value version).base ≡ N.region_base front.now.region }
        requires cut { (arc_value version).cut ≡ front.now.lines }
        requires later { IsPrefix self.old.shown.lines front.now.lines }
        ensures ok { OnOk result (self.new.shown ≡ front.now) }
        ensures err { OnErr result (self.new.shown ≡ self.old.shown) }
    {
        let Some(writer) = mem::replace(&mut self.writer, None) else {
            return Err(NoMemory);
        };
        let sight = Sight::of(front.again(), &version);
        let next = Showing {
            region: front.region(),
            version,
            page: front.page(),
        };
        let (writer, answer) = publish(&self.rt, writer, next);
        match mem::replace(&mut self.writer, Some(writer)) {
            None => {}
            Some(other) => drop(other.take(&self.rt)),
        }
        if answer.is_err() {
            return Err(NoMemory);
        }
        self.shown = sight;
        Ok(())
    }

    /// Tells what is shown.
    pub fn tell(&mut self) -> Told<N>
        ensures told { result.sight ≡ self.old.shown }
        ensures same { self.new.shown ≡ self.old.shown }
    {
        Told {
            sight: self.shown.again(),
        }
    }
}

impl<N: VersionsNaming, R: Wait + Drop> Drop for Shower<N, R> {
    fn drop(self) {
        let Self {
            rt,
            writer,
            shown: _shown,
        } = self;
        match writer {
            None => {}
            Some(writer) => drop(writer.take(&rt)),
        }
    }
}

/// The shower and its viewers.
#[derive(Drop)]
pub struct VersionParts<N: VersionsNaming, R: Wait + Drop> {
    pub shower: Shower<N, R>,
    pub viewers: ViewerList<N>,
}
