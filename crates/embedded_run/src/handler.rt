//! What a handler does.

ghost use Rattle.std.specs.Prelude.{◌≡◌, ◌≤◌};
ghost use Rattle.server_model.specs.Pass.{IsFresh};

use embedded::Session;

/// A handler: what it is to do on its server, and what it has learnt. It keeps what it wants to know later: nothing else is kept of its calls.
pub trait Handler {
    ghost use Rattle.std.specs.Prelude.{ℕ};
    ghost use Rattle.server_model.specs.Pass.{Naming, Pass};

    /// What its work is to be, in the handler's own words: of itself before, the server's name, the time of its puts in milliseconds, what its pass
    /// knew before and after, and itself after. A handler that wants to promise nothing says `λ _ _ _ _ _ _. Unit {0}`.
    ghost did: { Self → Naming → ℕ → Pass → Pass → Self → Type 0 };

    /// Does all that the handler is to do. It has made no call yet, and region 1 is there.
    fn work<S: Session>(&mut self, at: &mut S)
        requires of { S.is_open at.old }
        requires fresh { IsFresh (S.knows at.old).handler (S.knows at.old) }
        requires regions { 1 ≤ S.name.regions }
        ensures did { did self.old S.name (S.setting at.old).time (S.knows at.old) (S.knows at.new) self.new }
        ensures of { S.is_open at.new }
        ensures same { S.setting at.new ≡ S.setting at.old };
}
