//! A scan of one region that is read a page at a time.

ghost use Rattle.std.specs.Prelude.{◌≡◌, ℕ};
ghost use Rattle.pass_calls.specs.log_service.declared.seats.LogSeat.{LogSeat};
ghost use Rattle.region_model.specs.Lines.{last_in};
ghost use Rattle.pass_calls.specs.region_lock.Calls.{ScansAt};
ghost use Rattle.pass_calls.specs.region_lock.Passes.{known_of};
ghost use Rattle.region_calls.specs.Answers.{begun_answer};

use kv_cell::NoMemory;
use pass_calls::region_lock::{RegionPass, view_in};
use region_state::Scanner;
use std::alloc::Global;

/// The scan of the last version shown of the region, which is not before one that the pass has seen. The pass has then seen it.
pub(crate) fn scanner_in<N: pass_calls::region_lock::LockNaming + region_versions::VersionsNaming>(
    alloc: Global,
    at: &mut RegionPass<N>,
    from: &[u8],
    to: &[u8],
) -> Result<Scanner, NoMemory>
    ensures scans { (n : ℕ) (seat : LogSeat) → ScansAt (N.region_base at.old.viewer.region) from.now to.now
        (begun_answer (last_in (N.region_base at.old.viewer.region) at.new.viewer.lines) result) (known_of n at.old seat) (known_of n at.new seat) }
    ensures region { at.new.viewer.region ≡ at.old.viewer.region }
    ensures hand { (at.new.hand ≡ at.old.hand) × (at.new.told ≡ at.old.told) }
{
    let Ok(version) = view_in(at) else {
        return Err(NoMemory);
    };
    // For the proof: the version's point is the last number of its cut (its clause is what this call is for).
    let _point = version.point();
    Scanner::of_version(alloc, version, from, to)
}
