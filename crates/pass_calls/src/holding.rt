//! How a region's lock is taken.

ghost use Rattle.std.specs.Prelude.{◌≡◌, ◌≤◌};
ghost use Rattle.std.specs.Sync.Mutex.{mutex_guard_value};
ghost use Rattle.region_state.specs.States.{write_point};

use region_lock::{LockNaming, Locked};
use std::sync::{Mutex, MutexGuard, Wait};

/// Takes the lock of this region, of which this point was seen. By the lock's invariant no other region lies in it, and none that hasn't
/// come to the point: if one did, the call would try for ever rather than answer wrongly.
pub(crate) fn hold<
    'l,
    N: LockNaming + region_lock::log_service::ServiceNaming + region_versions::VersionsNaming,
    R: Wait + Drop,
    S: Wait,
>(rt: &S, lock: &'l Mutex<Locked<N, R>>, region: u32, seen: u64) -> MutexGuard<'l, Locked<N, R>>
    ensures region { (mutex_guard_value result).state.region ≡ region }
    ensures seen { seen ≤ write_point (mutex_guard_value result).state }
{
    'looking: for _ in rt.forever() {
        let guard = lock.lock(rt);
        if guard.region() == region && seen <= guard.write_point() {
            return guard;
        }
    }
    unreachable!()
}
