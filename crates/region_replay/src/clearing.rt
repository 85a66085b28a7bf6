//! The end of an opening.

ghost use Rattle.std.specs.Prelude.{◌≡◌, IsTrue, OnOk, IsErr};
ghost use Rattle.log_model.specs.Files.{Files};
ghost use Rattle.recovery_laws.specs.Kept.{HasNoLogs};
ghost use Rattle.disk_images.specs.Crash.{Throughout};
ghost use Rattle.disk_images.specs.Calls.{HasCause};
ghost use Rattle.recovery_laws.specs.Alike.{AllAlike};
ghost use Rattle.wal_split.specs.Held.{IsHeld};
ghost use Rattle.region_replay.specs.Alone.{IsPinned};
ghost use Rattle.region_replay.specs.Cleared.{IsCleared};

use disk_images::{Disk, Failed};

/// Makes durable which files are there, so that no log and no edits file that went comes again.
pub(crate) fn clear<D: Disk>(disk: &mut D) -> Result<(), Failed>
    ensures any_moment { IsTrue D.told → (base : Files) → IsHeld base (D.view disk.old)
        → Throughout (AllAlike base) 1 (D.view disk.old) (D.view disk.new) }
    ensures cleared { IsTrue D.told → (base : Files) → IsHeld base (D.view disk.old) → HasNoLogs (D.view disk.old).files
        → OnOk result (IsCleared (D.view disk.new)) }
    ensures held { IsTrue D.told → (base : Files) → IsHeld base (D.view disk.old) → IsHeld base (D.view disk.new) }
    ensures pinned { IsTrue D.told → OnOk result (IsPinned (D.view disk.new)) }
    ensures files { IsTrue D.told → (D.view disk.new).files ≡ (D.view disk.old).files }
    ensures cause { HasCause (D.faults disk.old) (D.faults disk.new) (IsErr result) }
{
    disk.settle()
}
