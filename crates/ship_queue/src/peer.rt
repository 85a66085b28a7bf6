//! To whom a log is shipped.

ghost use Rattle.std.specs.Prelude.{ℕ, List, [], ◌∷◌, ◌++◌, OnOk, IsErr};
ghost use Rattle.disk_images.specs.Calls.{HasCause};
ghost use Rattle.log_tail.specs.Position.{position_of};
ghost use Rattle.ship_queue.specs.Messages.{Message, Entry_of, Record_of, placed, MayHaveCome, MayBeRecorded};

use disk_images::Failed;
use entry_frame::Entry;
use log_tail::Position;

/// To whom a log is shipped, and who records up to where. Of a peer that tells what it was told, contracts know the entries
/// and the recorded positions, in order; another one, and one that has failed, may tell nothing.
pub trait Peer {
    ghost use Rattle.std.specs.Prelude.{ℕ, List};
    ghost use Rattle.ship_queue.specs.Messages.{Message};

    /// It tells that it was told this.
    ghost has: { Self → List Message → Type 0 };

    /// A call of it has failed: it was told these, and of this message a beginning at most, or all. Nothing came after that.
    ghost torn: { Self → List Message → Message → Type 0 };

    /// How often it has failed. It never falls, and stands at the end of its type.
    ghost faults: { Self → ℕ };

    /// The second is the first at a later time, and what it borrows is the same.
    ghost stays: { Self → Self → Type 0 };

    /// Ships an entry, with its file and its place there, counted from 1. After Failed it may have come or not.
    fn ship(&mut self, at: Position, entry: &Entry) -> Result<(), Failed>
        ensures shipped { (ms : List Message) → has self.old ms → OnOk result (has self.new (ms ++ Entry_of (placed at entry.now) ∷ [])) }
        ensures failed { (ms ns : List Message) → has self.old ms → has self.new ns → IsErr result → MayHaveCome ms ns (placed at entry.now) }
        ensures torn { (ms : List Message) → has self.old ms → IsErr result → torn self.new ms (Entry_of (placed at entry.now)) }
        ensures stays { stays self.old self.new }
        ensures cause { HasCause (faults self.old) (faults self.new) (IsErr result) };

    /// Records a position. After Failed it may be recorded or not.
    fn confirm(&mut self, at: Position) -> Result<(), Failed>
        ensures recorded { (ms : List Message) → has self.old ms → OnOk result (has self.new (ms ++ Record_of (position_of at) ∷ [])) }
        ensures failed { (ms ns : List Message) → has self.old ms → has self.new ns → IsErr result → MayBeRecorded ms ns (position_of at) }
        ensures torn { (ms : List Message) → has self.old ms → IsErr result → torn self.new ms (Record_of (position_of at)) }
        ensures stays { stays self.old self.new }
        ensures cause { HasCause (faults self.old) (faults self.new) (IsErr result) };

    ghost stays_itself: { (p : Self) → stays p p };

    ghost stays_on: { (p q r : Self) → stays p q → stays q r → stays p r };
}
