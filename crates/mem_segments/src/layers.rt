//! The segments of a version, oldest first: neighbours are merged where the newer is over half as long.

ghost use Rattle.std.specs.Prelude.{◌≡◌, ◌≤◌, [], ◌∷◌, ◌++◌, map, IfOk};
ghost use Rattle.std.specs.Arc.{arc_value};
ghost use Rattle.std.specs.FinMap.{len};
ghost use Rattle.cell_model.specs.Halves.{IsHalving};
ghost use Rattle.cell_model.specs.Join.{joined};
ghost use Rattle.mem_segments.specs.Layers.{FewSegments, lengths_of};

use crate::merging::merge;
use crate::segment::Segment;
use kv_cell::NoMemory;
use std::alloc::Global;
use std::marker::Model;
use std::sync::Arc;

/// Segments, oldest first, none of them empty, each at least twice as long as the next. So n cells stand in at most
/// log2 n + 1 segments. Contracts see the list of their contents.
#[derive(Drop)]
pub struct SegmentList {
    parts: Vec<Arc<Segment, Global>>,
}

impl Model for SegmentList {
    ghost use Rattle.std.specs.Prelude.{List, map};
    ghost use Rattle.std.specs.Arc.{arc_value};
    ghost use Rattle.cell_model.specs.Order.{Content};
    ghost use Rattle.cell_model.specs.Codes.{coded_content};
    ghost use Rattle.cell_model.specs.Halves.{IsHalving};
    ghost use Rattle.mem_segments.specs.Layers.{lengths_of};
    ghost use Rattle.std.specs.Coded.{coded_list};

    ghost Value = { List Content };

    ghost coded = { coded_list coded_content };

    ghost view = { λ s. map arc_value s.parts.items };

    ghost invariant = { λ s. IsHalving (lengths_of (map arc_value s.parts.items)) };
}

impl SegmentList {
    /// No segment. It takes no memory.
    pub fn new(alloc: Global) -> SegmentList
        ensures { result ≡ [] }
    {
        SegmentList {
            parts: Vec::new(alloc),
        }
    }

    /// The same list: each segment is shared, and no row is.
    pub fn share(&self, alloc: Global) -> Result<SegmentList, NoMemory>
        ensures { IfOk result (λ all. all ≡ self.now) }
    {
        let parts = share_parts(alloc, &self.parts)?;
        Ok(SegmentList { parts })
    }

    /// These segments and a newer one, of whose cells each takes the place of an older one with its key and number.
    /// The list itself stays, and shares what isn't merged.
    pub fn with_newer(
        &self,
        alloc: Global,
        newer: Arc<Segment, Global>,
    ) -> Result<SegmentList, NoMemory>
        requires { 1 ≤ len (arc_value newer) }
        ensures { IfOk result (λ all. joined all ≡ joined (self.now ++ arc_value newer ∷ [])) }
    {
        let parts = merged_parts(alloc, &self.parts, newer)?;
        Ok(SegmentList { parts })
    }

    /// The segments, lent, oldest first.
    pub fn as_slice(&self) -> &[Arc<Segment, Global>]
        ensures parts { map arc_value result.now ≡ self.now }
        ensures halving { IsHalving (lengths_of self.now) }
    {
        self.parts.as_slice()
    }
}

/// These segments and a newer one: it is merged with the last one while it is over half as long.
fn merged_parts(
    alloc: Global,
    parts: &[Arc<Segment, Global>],
    newer: Arc<Segment, Global>,
) -> Result<Vec<Arc<Segment, Global>>, NoMemory>
    requires halving { IsHalving (lengths_of (map arc_value parts.now)) }
    requires given { 1 ≤ len (arc_value newer) }
    ensures content { IfOk result (λ all. joined (map arc_value all.items) ≡ joined (map arc_value parts.now ++ arc_value newer ∷ [])) }
    ensures halving { IfOk result (λ all. IsHalving (lengths_of (map arc_value all.items))) }
{
    let mut newest = newer;
    let mut kept = parts.len();
    while kept > 0 && newest.len() > parts[kept - 1].len() / 2 {
        kept -= 1;
        newest = merged_pair(alloc, &parts[kept], &newest)?;
    }
    let mut all = share_parts(alloc, &parts[..kept])?;
    all.push(newest)?;
    Ok(all)
}

/// The two merged.
fn merged_pair(
    alloc: Global,
    older: &Arc<Segment, Global>,
    newer: &Arc<Segment, Global>,
) -> Result<Arc<Segment, Global>, NoMemory>
    ensures { IfOk result (λ merged. arc_value merged ≡ joined (arc_value older.now ∷ arc_value newer.now ∷ [])) }
{
    Ok(Arc::new(alloc, merge(alloc, older, newer)?)?)
}

/// The same segments, shared.
fn share_parts(
    alloc: Global,
    parts: &[Arc<Segment, Global>],
) -> Result<Vec<Arc<Segment, Global>>, NoMemory>
    ensures { IfOk result (λ all. map arc_value all.items ≡ map arc_value parts.now) }
{
    let mut all = Vec::with_capacity(alloc, parts.len() + 1)?;
    for part in parts {
        all.push(Arc::try_clone(part)?)?;
    }
    Ok(all)
}

/// k + 1 halving segments, of which the oldest has n cells, have 2^k at most n. It does nothing: its contract is the
/// law.
pub fn few_segments()
    ensures { FewSegments }
{}
