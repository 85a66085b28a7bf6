//! One that views.

ghost use Rattle.std.specs.Prelude.{◌≡◌, ◌≤◌, ◌<◌, [], ◌∷◌, IfOk, IfSome, IfNone, OnErr, MatchBool, length};
ghost use Rattle.std.specs.Arc.{arc_value};
ghost use mathlib.Core.List.{IsPrefix};
ghost use Rattle.region_model.specs.Lines.{last_in};
ghost use Rattle.region_versions.specs.Shown.{IsOf};

use crate::front::Front;
use crate::naming::VersionsNaming;
use crate::rule::{Monotone, Seen, Sees};
use crate::shower::Told;
use crate::sight::Sight;
use crate::slot::Showing;
use kv_cell::NoMemory;
use left_right::reader::Reader;
use region_state::Version;
use std::alloc::Global;
use std::collections::VecDeque;
use std::marker::Model;
use std::sync::Arc;

pub(crate) type SlotReader<N> = Reader<Showing, Seen, Monotone<N>>;

/// Enters, and takes the version that is shown.
fn enter<N: VersionsNaming>(reader: SlotReader<N>) -> (SlotReader<N>, Result<Showing, NoMemory>)
    ensures { IfOk result.1 (λ s. IsOf N.book N.region_base s) }
{
    match reader.enter_as::<Sees<N>>() {
        Ok(reading) => {
            let shown = reading.get();
            let found = match Arc::try_clone(&shown.version) {
                Ok(version) => {
                    Ok(Showing {
                        region: shown.region,
                        version,
                        page: shown.page.again(),
                    })
                }
                Err(_) => Err(NoMemory),
            };
            (reading.leave(), found)
        }
        Err(reader) => (reader, Err(NoMemory)),
    }
}

/// One that views a region's versions. Contracts see the region and the lines that it viewed or learnt last.
#[derive(Drop)]
pub struct Viewer<N: VersionsNaming> {
    reader: Option<SlotReader<N>>,
    last: Sight<N>,
}

impl<N: VersionsNaming> Model for Viewer<N> {
    ghost use Rattle.std.specs.Prelude.{◌≡◌};
    ghost use Rattle.region_versions.specs.Histories.{Beginning, coded_beginning};

    ghost Value = { Beginning };

    ghost coded = { coded_beginning };

    ghost view = { λ v. v.last };
}

impl<N: VersionsNaming> Viewer<N> {
    pub(crate) fn of(reader: SlotReader<N>, last: Sight<N>) -> Viewer<N>
        ensures { result ≡ last }
    {
        Viewer {
            reader: Some(reader),
            last,
        }
    }

    /// Of which region it is.
    pub fn region(&self) -> u32
        ensures { result ≡ self.now.region }
    {
        self.last.front().region()
    }

    /// The point of the last version that was viewed or learnt.
    pub fn seen(&self) -> u64
        ensures { result ≡ last_in (N.region_base self.now.region) self.now.lines }
    {
        self.last.point()
    }

    /// Enters. What is found is of this region and not before what was seen; else, which no run shows, nothing is.
    fn look(&mut self) -> Result<Showing, NoMemory>
        ensures region { self.new.region ≡ self.old.region }
        ensures base { IfOk result (λ s. (arc_value s.version).base ≡ N.region_base self.old.region) }
        ensures ok { IfOk result (λ s. IsPrefix self.old.lines (arc_value s.version).cut × (self.new.lines ≡ (arc_value s.version).cut)) }
        ensures err { OnErr result (self.new ≡ self.old) }
    {
        let Some(reader) = self.reader.take() else {
            return Err(NoMemory);
        };
        let (reader, found) = enter(reader);
        self.reader = Some(reader);
        let found = found?;
        let region = self.last.front().region();
        if found.region != region || found.page.len() < self.last.front().len() {
            return Err(NoMemory);
        }
        let front = Front::of_page(region, &found.page);
        // For the proof: what was seen before begins what was found (its clause is what this call is for).
        self.last.front().compare(&front);
        self.last = Sight::of(front, &found.version);
        Ok(found)
    }

    /// A version that was shown, not before the last one viewed or learnt.
    pub fn view(&mut self) -> Result<Arc<Version, Global>, NoMemory>
        ensures region { self.new.region ≡ self.old.region }
        ensures base { IfOk result (λ v. (arc_value v).base ≡ N.region_base self.old.region) }
        ensures ok { IfOk result (λ v. IsPrefix self.old.lines (arc_value v).cut × (self.new.lines ≡ (arc_value v).cut)) }
        ensures err { OnErr result (self.new ≡ self.old) }
    {
        let found = self.look()?;
        let Showing { version, .. } = found;
        Ok(version)
    }

    /// The point of the version that is shown, or where none is found, of the last one viewed or learnt. It takes no memory.
    pub fn point(&mut self) -> u64
        ensures region { self.new.region ≡ self.old.region }
        ensures later { IsPrefix self.old.lines self.new.lines }
        ensures point { result ≡ last_in (N.region_base self.new.region) self.new.lines }
    {
        drop(self.look());
        self.last.point()
    }

    /// Takes in what a shower of the region told.
    pub fn learn(&mut self, told: Told<N>)
        requires { told.sight.region ≡ self.old.region }
        ensures region { self.new.region ≡ self.old.region }
        ensures this { IsPrefix self.old.lines self.new.lines }
        ensures that { IsPrefix told.sight.lines self.new.lines }
    {
        // For the proof: of the two the one with no more lines begins the other (its clause is what this call is for).
        self.last.front().compare(told.sight.front());
        if self.last.front().len() < told.sight.front().len() {
            self.last = told.sight;
        }
    }

    /// Whether no more was seen than this beginning of the region's history, which then begins with what was seen.
    pub fn is_within(&self, front: &Front<N>) -> bool
        requires { front.now.region ≡ self.now.region }
        ensures { MatchBool result (IsPrefix self.now.lines front.now.lines) (length front.now.lines < length self.now.lines) }
    {
        // For the proof: of the two the one with no more lines begins the other (its clause is what this call is for).
        self.last.front().compare(front);
        self.last.front().len() <= front.len()
    }
}

/// The viewers that are not handed out yet.
#[derive(Drop)]
pub struct ViewerList<N: VersionsNaming> {
    pub viewers: VecDeque<Viewer<N>>,
}

impl<N: VersionsNaming> ViewerList<N> {
    /// The next viewer, and None exactly after the last.
    pub fn next(&mut self) -> Option<Viewer<N>>
        ensures some { IfSome result (λ viewer. self.old.viewers.items ≡ viewer ∷ self.new.viewers.items) }
        ensures none { IfNone result ((self.old.viewers.items ≡ []) × (self.new.viewers.items ≡ [])) }
    {
        self.viewers.pop_front()
    }
}
