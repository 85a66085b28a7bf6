//! Passes are handed out, and come back.

ghost use Rattle.std.specs.Prelude.{◌≡◌, ◌+◌, ◌<◌, [], ◌∷◌, ◌++◌, length, IfSome, IfNone};
ghost use Rattle.pass_calls.specs.log_service.Places.{ServiceId};
ghost use Rattle.server_model.specs.Pass.{IsFresh};
ghost use Rattle.region_calls.specs.Passes.{knows, IsPassOf};
ghost use Rattle.region_calls.specs.Deals.{passes_out, passes_back, ArePassesOf};

use crate::dealing::deal;
use crate::pass::Pass;
use crate::passes::Passes;

impl<N: pass_calls::region_lock::LockNaming + region_versions::VersionsNaming> Passes<N> {
    /// The pass of the next handler, from 1 on, and None exactly after the last. It takes no memory.
    pub fn next(&mut self) -> Option<Pass<N>>
        requires of { (place : ServiceId) × ArePassesOf place N.handlers self.old }
        ensures some { IfSome result
            (λ pass. (passes_out self.old < N.handlers) × (passes_out self.new ≡ passes_out self.old + 1)
            × IsFresh (passes_out self.old + 1) (knows pass)) }
        ensures none { IfNone result ((passes_out self.old ≡ N.handlers) × (passes_out self.new ≡ N.handlers)) }
        ensures back { passes_back self.new ≡ passes_back self.old }
        ensures of { (place : ServiceId) → ArePassesOf place N.handlers self.old
            → ArePassesOf place N.handlers self.new × IfSome result (λ pass. IsPassOf place pass) }
    {
        let seat = self.seats.next()?;
        let Some(room) = self.rooms.pop() else {
            unreachable!()
        };
        let left = self.handlers - self.out;
        self.out += 1;
        let regions = deal(&mut self.regions, &self.seats, room, self.out, left);
        Some(Pass {
            handler: self.out,
            calls: 0,
            seat,
            regions,
        })
    }

    /// Takes a pass back. One is out. It takes no memory.
    pub fn put_back(&mut self, pass: Pass<N>)
        requires of { (place : ServiceId) × ArePassesOf place N.handlers self.old × IsPassOf place pass }
        requires out { length (passes_back self.old) < passes_out self.old }
        ensures back { passes_back self.new ≡ passes_back self.old ++ knows pass ∷ [] }
        ensures out { passes_out self.new ≡ passes_out self.old }
        ensures of { (place : ServiceId) → ArePassesOf place N.handlers self.old → IsPassOf place pass → ArePassesOf place N.handlers self.new }
    {
        self.back.push_reserved(pass);
    }
}
