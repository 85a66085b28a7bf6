//! The cells of a region's stores in one order.

ghost use Rattle.std.specs.Prelude.{◌≡◌, IfOk, OnOk, map};
ghost use Rattle.std.specs.Arc.{arc_value};
ghost use Rattle.std.specs.List.{AllByRecursion};
ghost use Rattle.std.specs.FinMap.{empty};
ghost use Rattle.cell_model.specs.Cell.{IsCell};
ghost use Rattle.cell_model.specs.Join.{joined};
ghost use Rattle.cell_model.specs.Merge.{put_numbered};
ghost use Rattle.region_replay.specs.Dealt.{cells_of};

use found_files::FoundStore;
use kv_cell::NoMemory;
use mem_segments::{Segment, merge};
use std::alloc::Global;
use std::sync::Arc;

/// The cells of these stores in order; of those that hold one version, the last one's. The cells of each store are in order
/// already, so nothing is sorted: n cells of k stores take a time of n log k.
pub(crate) fn merged_cells(
    alloc: Global,
    stores: Vec<FoundStore>,
) -> Result<Arc<Segment, Global>, NoMemory>
    ensures content { IfOk result (λ merged. arc_value merged ≡ put_numbered empty (cells_of stores.items)) }
    ensures within { OnOk result (AllByRecursion (λ x. IsCell x.1) (cells_of stores.items)) }
{
    let parts = segments_of(alloc, stores)?;
    let merged = merge_all(alloc, &parts)?;
    Ok(merged)
}

/// The cells of each store as a segment. No byte of a cell is copied.
fn segments_of(
    alloc: Global,
    stores: Vec<FoundStore>,
) -> Result<Vec<Arc<Segment, Global>>, NoMemory>
    ensures content { IfOk result (λ parts. joined (map arc_value parts.items) ≡ put_numbered empty (cells_of stores.items)) }
    ensures within { OnOk result (AllByRecursion (λ x. IsCell x.1) (cells_of stores.items)) }
{
    let mut parts = Vec::with_capacity(alloc, stores.len())?;
    for store in stores {
        let FoundStore { text, .. } = store;
        let part = Segment::of_cells(alloc, text.cells)?;
        parts.push(Arc::new(alloc, part)?)?;
    }
    Ok(parts)
}

/// The segments merged by halves. One alone is shared.
fn merge_all(
    alloc: Global,
    parts: &[Arc<Segment, Global>],
) -> Result<Arc<Segment, Global>, NoMemory>
    ensures { IfOk result (λ merged. arc_value merged ≡ joined (map arc_value parts.now)) }
{
    if parts.is_empty() {
        let none = Arc::new(alloc, Segment::new(alloc))?;
        return Ok(none);
    }
    if parts.len() == 1 {
        let one = Arc::try_clone(&parts[0])?;
        return Ok(one);
    }
    let half = parts.len() / 2;
    let first = merge_all(alloc, &parts[..half])?;
    let second = merge_all(alloc, &parts[half..])?;
    let merged = Arc::new(alloc, merge(alloc, &first, &second)?)?;
    Ok(merged)
}
