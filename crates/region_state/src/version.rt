//! What readers see.

ghost use Rattle.std.specs.Prelude.{◌≡◌, ℕ, map, IfOk, OnErr};
ghost use Rattle.std.specs.Arc.{arc_value};
ghost use Rattle.std.specs.List.{AllPass};
ghost use Rattle.cell_model.specs.Halves.{IsHalving};
ghost use Rattle.cell_model.specs.Join.{joined};
ghost use Rattle.region_model.specs.Journal.{visible};
ghost use Rattle.mem_segments.specs.Layers.{lengths_of};
ghost use Rattle.mem_segments.specs.Walk.{to_come, IsPage};
ghost use Rattle.region_model.specs.Lines.{edits_in, last_in, is_completed_line};

use crate::line::Line;
use kv_cell::NoMemory;
use mem_segments::{Base, Cursor, MergeIter, Page, Segment, SegmentList};
use std::alloc::Global;
use std::marker::Model;
use std::snapshot::Snapshot;
use std::sync::Arc;

/// The cells of a base and of the done lines up to a point. Contracts see the base, the journal's lines up to the point
/// and the point; the code keeps the point and the segments alone.
pub struct Version {
    point: u64,
    segments: SegmentList,
    base: Snapshot<Base>,
    lines: Snapshot<Vec<Line>>,
}

/// By hand, as that of kv_cell's `Octets`: the crates above call it.
impl Drop for Version {
    fn drop(self) {
        let Version {
            point: _,
            segments: _,
            base: _,
            lines: _,
        } = self;
    }
}

impl Model for Version {
    ghost use Rattle.std.specs.Prelude.{map};
    ghost use Rattle.std.specs.Arc.{arc_value};
    ghost use Rattle.region_state.specs.Versions.{Shown, coded_shown, shown_at, IsShown};

    ghost Value = { Shown };

    ghost coded = { coded_shown };

    ghost view = { λ v. shown_at v.base.value v.point v.lines.value.items };

    ghost invariant = { λ v. IsShown v.segments (shown_at v.base.value v.point v.lines.value.items) };
}

impl Version {
    ghost use Rattle.region_state.specs.Versions.{shown_at, shown_content, seen_in, IsShown};

    /// What the parts hold is what is shown of these lines at the point.
    pub(crate) fn new(point: u64, segments: SegmentList, base: &Base, lines: &Vec<Line>) -> Version
        requires { IsShown segments (shown_at base.now point lines.now.items) }
        ensures { result ≡ shown_at base.now point lines.now.items }
    {
        Version {
            point,
            segments,
            base: Snapshot::of(base),
            lines: Snapshot::of(lines),
        }
    }

    /// The greatest number up to which each edit is completed and shown.
    pub fn point(&self) -> u64
        ensures point { result ≡ self.now.point }
        ensures end { result ≡ last_in self.now.base self.now.cut }
        ensures completed { AllPass is_completed_line self.now.cut }
    {
        self.point
    }

    /// The segments that hold its cells, oldest first: with n cells at most log2 n + 1.
    pub fn segments(&self) -> &[Arc<Segment, Global>]
        ensures cells { joined (map arc_value result.now) ≡ shown_content self.now }
        ensures few { IsHalving (lengths_of (map arc_value result.now)) }
    {
        self.segments.as_slice()
    }

    /// A walk over its cells in order whose rows lie at or above `from` and, if `to` isn't empty, below `to`: what a
    /// reader sees at the point.
    pub fn scan(&self, alloc: Global, from: &[u8], to: &[u8]) -> Result<MergeIter<'_>, NoMemory>
        ensures { IfOk result (λ walk. (region : ℕ) → walk ≡ visible self.now.base.content (edits_in region self.now.cut) self.now.point from.now to.now) }
    {
        let walk = MergeIter::new(alloc, self.segments.as_slice(), from, to)?;
        Ok(walk)
    }

    /// The next `count` cells of that walk, or all that are left where there are fewer, from where the cursor stands. The
    /// cursor moves after them; out of memory it stays. So pages joined are what a reader sees at the point.
    pub fn scan_page(
        &self,
        alloc: Global,
        cursor: &mut Cursor,
        from: &[u8],
        to: &[u8],
        count: u32,
    ) -> Result<Page, NoMemory>
        ensures ok { IfOk result (λ page. (region : ℕ) → let seen = seen_in region self.now from.now to.now in
            IsPage count page.cells page.done (to_come cursor.old seen) (to_come cursor.new seen)) }
        ensures err { OnErr result (cursor.new ≡ cursor.old) }
    {
        let page = self.segments.page(alloc, cursor, from, to, count)?;
        Ok(page)
    }
}
