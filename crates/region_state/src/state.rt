//! The state of one region.

ghost use Rattle.std.specs.Prelude.{◌≡◌, ◌+◌, ◌-◌, ◌<◌, ◌≤◌, ◌^◌, [], ◌∷◌, ◌++◌, length, Contains, MatchOption, IfOk, OnOk, OnErr};
ghost use Rattle.std.specs.Arc.{arc_value};
ghost use Rattle.std.specs.List.{AllPass};
ghost use Rattle.cell_model.specs.Order.{Content, cells_of};
ghost use Rattle.region_model.specs.Journal.{IsJournal, visible};
ghost use Rattle.region_model.specs.Lines.{pending, IsPending, IsNextCall, with_outcome, edits_in, last_in, is_completed_line};
ghost use Rattle.mem_segments.specs.Draft.{IsDraftOf};
ghost use Rattle.region_state.specs.Outcomes.{outcome_at_end};
ghost use Rattle.region_state.specs.States.{write_point, IsReadPoint, IsUpTo};
ghost use Rattle.region_state.specs.Versions.{shown_at, shown_content};
ghost use Rattle.region_state.specs.Layers.{AreLayers, taken};

use crate::caller::Caller;
use crate::layers::Layers;
use crate::line::{Ended, Line};
use crate::version::Version;
use kv_cell::{Batch, NoMemory};
use mem_segments::{Base, Draft, Segment};
use std::alloc::Global;
use std::marker::Model;
use std::sync::Arc;
use write_queue::{WriteEntry, WriteQueue};

/// A region's base, its journal, its write queue and the segments of its next version. Contracts see the base, the lines
/// of the journal, the shown point and the room.
#[derive(Drop)]
pub struct RegionState {
    region: u32,
    base: Base,
    lines: Vec<Line>,
    queue: WriteQueue,
    layers: Layers,
    shown: u64,
}

impl Model for RegionState {
    ghost use Rattle.std.specs.Prelude.{◌-◌, min, vec_len, vec_capacity};
    ghost use Rattle.region_state.specs.States.{State, coded_state, IsRegion};

    ghost Value = { State };

    ghost coded = { coded_state };

    ghost view = { λ s. record {
      region = s.region;
      base = s.base;
      lines = s.lines.items;
      shown = s.shown;
      room = min (vec_capacity s.lines - vec_len s.lines) (min s.queue.room s.layers.room);
    } };

    ghost invariant = { λ s. IsRegion s.region s.base s.lines.items s.queue.numbers s.layers.merged s.layers.waiting };
}

impl RegionState {
    /// A region with no edit since its base.
    pub fn new(alloc: Global, region: u32, base: Base) -> Result<RegionState, NoMemory>
        requires limit { base.last < 2 ^ 48 }
        requires upto { IsUpTo base.content base.last }
        ensures region { IfOk result (λ s. (s.region ≡ region) × (s.base ≡ base)) }
        ensures lines { IfOk result (λ s. s.lines ≡ []) }
        ensures shown { IfOk result (λ s. s.shown ≡ base.last) }
    {
        let queue = WriteQueue::new(alloc, base.last).map_err(|_| NoMemory)?;
        let layers = Layers::new(alloc, &base)?;
        let shown = base.last;
        Ok(RegionState {
            region,
            base,
            lines: Vec::new(alloc),
            queue,
            layers,
            shown,
        })
    }

    /// Which region it is.
    pub fn region(&self) -> u32
        ensures { result ≡ self.now.region }
    {
        self.region
    }

    /// Makes room for one edit.
    pub fn ready(&mut self) -> Result<(), NoMemory>
        ensures ok { OnOk result (1 ≤ self.new.room) }
        ensures same { self.new ≡ record self.old { room = self.new.room } }
        ensures room { self.old.room ≤ self.new.room }
    {
        self.lines.reserve(1)?;
        self.layers.reserve()?;
        if self.queue.reserve(1).is_err() {
            return Err(NoMemory);
        }
        Ok(())
    }

    /// The number that the next edit gets, and None exactly where numbers are spent.
    pub fn next_number(&self) -> Option<u64>
        ensures { MatchOption result (write_point self.now ≡ 2 ^ 48 - 1) (λ n. (n ≡ write_point self.now + 1) × (n < 2 ^ 48)) }
    {
        let last = self.queue.write_point();
        if last + 1 < 1 << 48 {
            Some(last + 1)
        } else {
            None
        }
    }

    /// What the region was opened with.
    pub fn base(&self) -> &Base
        ensures { result.now ≡ self.now.base }
    {
        &self.base
    }

    /// The last number that was drawn, or the base's.
    pub fn write_point(&self) -> u64
        ensures point { result ≡ write_point self.now }
        ensures limit { result < 2 ^ 48 }
    {
        self.queue.write_point()
    }

    /// The greatest number up to which each edit is completed.
    pub fn read_point(&self) -> u64
        ensures point { IsReadPoint self.now result }
        ensures within { result ≤ write_point self.now }
    {
        self.queue.read_point()
    }

    /// Adds one pending line at the end. It takes no memory.
    pub fn begin_edit(
        &mut self,
        caller: Caller,
        time: u64,
        batch: Arc<Batch, Global>,
        draft: Draft,
    ) -> WriteEntry
        requires room { 1 ≤ self.old.room }
        requires number { write_point self.old + 1 < 2 ^ 48 }
        requires draft { IsDraftOf draft (arc_value batch).cells }
        requires call { IsNextCall caller self.old.lines }
        ensures number { result ≡ write_point self.old + 1 }
        ensures lines { self.new ≡ record self.old {
          lines = self.old.lines ++ pending (write_point self.old + 1) caller time (arc_value batch) ∷ [];
          room = self.old.room - 1;
        } }
    {
        let cells = batch.as_slice();
        prove!(!cells.is_empty());
        let entry = self.queue.begin();
        let number = entry.number();
        self.layers.push(Segment::of_draft(draft, number));
        self.lines
            .push_reserved(Line::new(number, caller, time, batch));
        entry
    }

    /// Ends a pending line, and answers the read point. It takes no memory.
    pub fn end_edit(&mut self, entry: WriteEntry, ended: Ended) -> u64
        requires { IsPending self.old.lines entry }
        ensures lines { self.new ≡ record self.old { lines = with_outcome entry (outcome_at_end ended) self.old.lines; room = self.new.room } }
        ensures room { self.old.room ≤ self.new.room }
        ensures point { IsReadPoint self.new result }
    {
        let place = (entry.number() - last_of(&self.base) - 1) as usize;
        self.lines[place].end(ended);
        self.queue.complete(entry)
    }

    /// The version at the read point: the base with the done edits up to it.
    pub fn next_version(&mut self, alloc: Global) -> Result<Arc<Version, Global>, NoMemory>
        ensures point { IfOk result (λ v. IsReadPoint self.old (arc_value v).point) }
        ensures cut { IfOk result (λ v. arc_value v ≡ shown_at self.old.base (arc_value v).point self.old.lines) }
        ensures completed { IfOk result (λ v. AllPass is_completed_line (arc_value v).cut) }
        ensures end { IfOk result (λ v. (arc_value v).point ≡ last_in (arc_value v).base (arc_value v).cut) }
        ensures cells { IfOk result
            (λ v. cells_of (shown_content (arc_value v)) ≡ visible self.old.base.content (edits_in self.old.region self.old.lines) (arc_value v).point [] []) }
        ensures same { self.new ≡ record self.old { room = self.new.room } }
        ensures room { self.old.room ≤ self.new.room }
    {
        let point = self.queue.read_point();
        let count = (point - last_of(&self.base)) as usize;
        catch_up(alloc, &self.lines, count, &mut self.layers)?;
        let segments = self.layers.share(alloc)?;
        Ok(Arc::new(
            alloc,
            Version::new(point, segments, &self.base, &self.lines),
        )?)
    }

    /// The greatest point that was marked as shown, or the base's last number.
    pub fn shown(&self) -> u64
        ensures { result ≡ self.now.shown }
    {
        self.shown
    }

    /// Marks a point as shown. It takes no memory.
    pub fn mark_shown(&mut self, point: u64)
        ensures { self.new ≡ record self.old { shown = point } }
    {
        self.shown = point;
    }

    /// The base and the journal, handed on. It takes no memory.
    pub fn into_parts(self) -> (Base, Vec<Line>)
        ensures base { result.0 ≡ self.base }
        ensures lines { result.1.items ≡ self.lines }
        ensures journal { IsJournal self.region self.base (edits_in self.region self.lines) }
        ensures limit { write_point self < 2 ^ 48 }
    {
        let RegionState { base, lines, .. } = self;
        (base, lines)
    }

    /// The lines of all edits since the base, in the order of their numbers.
    pub fn journal(&self) -> &[Line]
        ensures lines { result.now ≡ self.now.lines }
        ensures journal { IsJournal self.now.region self.now.base (edits_in self.now.region self.now.lines) }
        ensures limit { write_point self.now < 2 ^ 48 }
    {
        self.lines.as_slice()
    }

    /// The line of the edit with this number.
    pub fn line(&self, number: u64) -> &Line
        requires behind { self.now.base.last < number }
        requires within { number ≤ write_point self.now }
        ensures number { result.now.number ≡ number }
        ensures listed { Contains self.now.lines result.now }
    {
        let place = (number - last_of(&self.base) - 1) as usize;
        &self.lines[place]
    }
}

/// The number after which the journal begins.
fn last_of(base: &Base) -> u64
    ensures { result ≡ base.now.last }
{
    base.last
}

/// Takes lines in, until `count` are. Where memory is refused those before are taken in.
fn catch_up(
    alloc: Global,
    lines: &[Line],
    count: usize,
    layers: &mut Layers,
) -> Result<(), NoMemory>
    requires count { count ≤ length lines.now }
    requires before { taken lines.now layers.old.waiting ≤ count }
    requires within { length layers.old.waiting ≤ length lines.now }
    ensures ok { OnOk result (taken lines.now layers.new.waiting ≡ count) }
    ensures before { taken lines.now layers.new.waiting ≤ count }
    ensures layers { (base : Content) → AreLayers base lines.now layers.old.merged layers.old.waiting
        → AreLayers base lines.now layers.new.merged layers.new.waiting }
    ensures room { layers.old.room ≤ layers.new.room }
{
    'taking: while lines.len() - layers.waiting() < count {
        let next = &lines[lines.len() - layers.waiting()];
        layers.take_in(alloc, next.is_done())?;
    }
    Ok(())
}
