//! What passes know of a region meets in its journal.

ghost use Rattle.std.specs.Prelude.{◌≡◌, ◌≤◌, ◌<◌, ◌+◌, ℕ, length, map, IsTrue, Contains, slice_get, Some};
ghost use Rattle.region_model.specs.Lines.{edits_in};
ghost use Rattle.pass_calls.specs.log_service.Places.{ServiceId};
ghost use Rattle.server_model.specs.Pass.{Pass as ThePass};
ghost use Rattle.pass_calls.specs.region_lock.Met.{IsMet};
ghost use Rattle.region_calls.specs.Backs.{AreAll};
ghost use Rattle.region_calls.specs.Deals.{AllOf};
ghost use Rattle.region_calls.specs.Passes.{knows, IsPassOf};

use crate::pass::Pass;
use pass_calls::region_lock::Locked;
use std::sync::Wait;

/// A pass meets a region. False where it viewed more than was shown, which no run shows.
fn meet_one<
    N: pass_calls::region_lock::LockNaming
        + pass_calls::log_service::ServiceNaming
        + region_versions::VersionsNaming,
    R: Wait + Drop,
>(locked: &mut Locked<N, R>, pass: &mut Pass<N>, place: usize) -> bool
    requires region { locked.old.state.region ≡ place + 1 }
    requires pass { (the : ServiceId) × IsPassOf the pass.old × (place < the.regions) }
    ensures same { locked.new ≡ locked.old }
    ensures knows { knows pass.new ≡ knows pass.old }
    ensures of { (the : ServiceId) → IsPassOf the pass.old → IsPassOf the pass.new }
    ensures met { IsTrue result
        → IsMet locked.old.state.base (edits_in locked.old.state.region locked.old.state.lines) (knows pass.old).handler ((knows pass.old).known (place + 1)) }
{
    locked.meet(&mut pass.regions[place])
}

/// All passes meet a region. False where one viewed more than was shown, which no run shows.
pub(crate) fn meet_all<
    N: pass_calls::region_lock::LockNaming
        + pass_calls::log_service::ServiceNaming
        + region_versions::VersionsNaming,
    R: Wait + Drop,
>(locked: &mut Locked<N, R>, passes: &mut Vec<Pass<N>>, place: usize) -> bool
    requires region { locked.old.state.region ≡ place + 1 }
    requires passes { (the : ServiceId) × AllOf the passes.old.items × (place < the.regions) }
    ensures same { locked.new ≡ locked.old }
    ensures knows { map knows passes.new.items ≡ map knows passes.old.items }
    ensures of { (the : ServiceId) → AllOf the passes.old.items → AllOf the passes.new.items }
    ensures met { IsTrue result → (p : ThePass) → Contains (map knows passes.old.items) p
        → IsMet locked.old.state.base (edits_in locked.old.state.region locked.old.state.lines) p.handler (p.known (place + 1)) }
{
    'meeting: for at in 0..passes.len() {
        if !meet_one(locked, &mut passes[at], place) {
            return false;
        }
    }
    true
}

/// One of these passes is the handler's.
fn is_among<N: pass_calls::region_lock::LockNaming + region_versions::VersionsNaming>(
    passes: &[Pass<N>],
    handler: u32,
) -> bool
    ensures { IsTrue result → (p : ThePass) × Contains (map knows passes.now) p × (p.handler ≡ handler) }
{
    'seeking: for at in 0..passes.len() {
        if passes[at].handler == handler {
            return true;
        }
    }
    false
}

/// For each handler one of these passes is its.
pub(crate) fn are_all<N: pass_calls::region_lock::LockNaming + region_versions::VersionsNaming>(
    passes: &[Pass<N>],
    handlers: u32,
) -> bool
    ensures { IsTrue result → AreAll handlers (map knows passes.now) }
{
    'counting: for before in 0..handlers {
        if !is_among(passes, before + 1) {
            return false;
        }
    }
    true
}
