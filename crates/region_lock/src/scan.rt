//! Scans of one region. They wait for nobody.

ghost use Rattle.std.specs.Prelude.{◌≡◌, ℕ, IfOk};
ghost use Rattle.std.specs.Arc.{arc_value};
ghost use mathlib.Core.List.{IsPrefix};
ghost use Rattle.log_service.specs.declared.seats.LogSeat.{LogSeat};
ghost use Rattle.region_model.specs.Lines.{last_in};
ghost use Rattle.region_state.specs.Versions.{seen_in};
ghost use Rattle.region_lock.specs.Answers.{scan_answer};
ghost use Rattle.region_lock.specs.Calls.{ScansAt};
ghost use Rattle.region_lock.specs.Passes.{known_of};

use crate::naming::LockNaming;
use crate::pass::RegionPass;
use kv_cell::NoMemory;
use mem_segments::SharedCells;
use region_state::Version;
use std::alloc::Global;
use std::sync::Arc;

/// A point, and the cells that a scan saw at it, in order. They are shared with the region's segments.
#[derive(Drop)]
pub struct ScanReply {
    pub point: u64,
    pub cells: SharedCells,
}

/// The cells of a version in a range of rows, shared: no byte of them is copied.
fn cells_of(
    alloc: Global,
    version: &Version,
    from: &[u8],
    to: &[u8],
) -> Result<SharedCells, NoMemory>
    ensures { IfOk result (λ cells. (region : ℕ) → cells ≡ seen_in region version.now from.now to.now) }
{
    let mut cells = SharedCells::new(alloc);
    let mut walk = version.scan(alloc, from, to)?;
    'sharing: while let Some(row) = walk.next_row() {
        cells.push(row.share()?)?;
    }
    cells.fit();
    Ok(cells)
}

/// A version that was shown of the region, not before the last one that the pass has seen. The pass has then seen it.
pub fn view_in<N: LockNaming + region_versions::VersionsNaming>(
    at: &mut RegionPass<N>,
) -> Result<Arc<Version, Global>, NoMemory>
    ensures version { IfOk result (λ v. ((arc_value v).base ≡ N.region_base at.old.viewer.region) × ((arc_value v).cut ≡ at.new.viewer.lines)) }
    ensures region { at.new.viewer.region ≡ at.old.viewer.region }
    ensures later { IsPrefix at.old.viewer.lines at.new.viewer.lines }
    ensures hand { (at.new.hand ≡ at.old.hand) × (at.new.told ≡ at.old.told) }
{
    let version = at.viewer.view()?;
    Ok(version)
}

/// The region's cells whose rows lie at or above `from` and, if `to` isn't empty, below `to`, as the last version shown has them, and its
/// point. The point is at or above each one that the pass has seen. Without memory the pass may have seen a later point.
pub fn scan_in<N: LockNaming + region_versions::VersionsNaming>(
    alloc: Global,
    at: &mut RegionPass<N>,
    from: &[u8],
    to: &[u8],
) -> Result<ScanReply, NoMemory>
    ensures scans { (n : ℕ) (seat : LogSeat) → ScansAt (N.region_base at.old.viewer.region) from.now to.now (scan_answer result)
        (known_of n at.old seat) (known_of n at.new seat) }
    ensures region { at.new.viewer.region ≡ at.old.viewer.region }
    ensures hand { (at.new.hand ≡ at.old.hand) × (at.new.told ≡ at.old.told) }
{
    let Ok(version) = view_in(at) else {
        return Err(NoMemory);
    };
    match cells_of(alloc, &version, from, to) {
        Ok(cells) => {
            Ok(ScanReply {
                point: version.point(),
                cells,
            })
        }
        Err(_) => Err(NoMemory),
    }
}

/// The point of the version that is shown, not below one that the pass has seen. The pass has then seen it. It takes no memory.
pub fn point_in<N: LockNaming + region_versions::VersionsNaming>(at: &mut RegionPass<N>) -> u64
    ensures point { result ≡ last_in (N.region_base at.new.viewer.region) at.new.viewer.lines }
    ensures region { at.new.viewer.region ≡ at.old.viewer.region }
    ensures later { IsPrefix at.old.viewer.lines at.new.viewer.lines }
    ensures hand { (at.new.hand ≡ at.old.hand) × (at.new.told ≡ at.old.told) }
{
    at.viewer.point()
}
