//! Edits files go.

ghost use Rattle.std.specs.Prelude.{◌≡◌, ◌≢◌, Contains, length, IsTrue, OnOk, IsErr};
ghost use Rattle.log_model.specs.declared.name.Name.{Name as TheName};
ghost use Rattle.log_model.specs.Files.{Files, IsAbsent, content};
ghost use Rattle.disk_images.specs.Crash.{Throughout};
ghost use Rattle.disk_images.specs.Calls.{HasCause};
ghost use Rattle.recovery_laws.specs.Alike.{AllAlike};
ghost use Rattle.wal_split.specs.Held.{IsHeld};
ghost use Rattle.region_replay.specs.Cuts.{AreEdits, EditsFlushed};
ghost use Rattle.region_replay.specs.Names.{AreThere};

use disk_images::{Disk, Failed, Name};

/// Removes these edits files, whose entries are flushed.
pub(crate) fn remove_all<D: Disk>(disk: &mut D, names: &[Name]) -> Result<(), Failed>
    requires edits { AreEdits (IsTrue D.told) names.now }
    requires there { IsTrue D.told → AreThere (D.view disk.old).files names.now }

    ensures any_moment { IsTrue D.told → (base : Files) → IsHeld base (D.view disk.old)
        → EditsFlushed (D.view disk.old).files names.now
        → Throughout (AllAlike base) (length names.now) (D.view disk.old) (D.view disk.new) }
    ensures held { IsTrue D.told → (base : Files) → IsHeld base (D.view disk.old)
        → EditsFlushed (D.view disk.old).files names.now → OnOk result (IsHeld base (D.view disk.new)) }
    ensures gone { IsTrue D.told → OnOk result ((m : TheName) → Contains names.now m
        → IsAbsent (D.view disk.new).files m) }
    ensures others { IsTrue D.told → OnOk result ((m : TheName) → ((n : TheName) → Contains names.now n → m ≢ n)
        → content (D.view disk.new).files m ≡ content (D.view disk.old).files m) }
    ensures cause { HasCause (D.faults disk.old) (D.faults disk.new) (IsErr result) }
{
    for name in names {
        disk.remove(*name)?;
    }
    Ok(())
}
