//! Opening the gate of a file that is filled.

ghost use Rattle.std.specs.Prelude.{◌≡◌, ◌≤◌, ◌<◌, ◌+◌, ◌^◌, ℕ, [], ◌∷◌, List, IsTrue, OnOk, IsErr};
ghost use Rattle.log_model.specs.declared.format.TheConstants.{OPEN_GATE};
ghost use Rattle.disk_images.specs.Crash.{Throughout, OnlyAt};
ghost use Rattle.disk_images.specs.OneFile.{Touches, IsDurableFile};
ghost use Rattle.disk_images.specs.Gate.{IsFilled};
ghost use Rattle.disk_images.specs.Calls.{HasCause};
ghost use Rattle.store_file.specs.Whole.{IsWholeOrNot};

use disk_images::{Disk, Failed, Name, open_gate, sync_filled};

/// Makes a filled file be there. It makes three disk calls.
pub(crate) fn commit_filled<D: Disk>(disk: &mut D, name: Name) -> Result<(), Failed>
    requires { IsTrue D.told → ∥ ((behind : List ℕ) × IsFilled (D.view disk.old) name (0 ∷ []) (0 ∷ behind)) ∥₁ }

    ensures stored { IsTrue D.told → (behind : List ℕ) → IsFilled (D.view disk.old) name (0 ∷ []) (0 ∷ behind)
        → OnOk result (IsDurableFile (D.view disk.new) name (OPEN_GATE ∷ behind)) }
    ensures any_moment { IsTrue D.told → (behind : List ℕ) → IsFilled (D.view disk.old) name (0 ∷ []) (0 ∷ behind)
        → Throughout (OnlyAt name (IsWholeOrNot (OPEN_GATE ∷ behind)) (D.view disk.old)) 3 (D.view disk.old) (D.view disk.new) }
    ensures touches { IsTrue D.told → Touches name (D.view disk.old) (D.view disk.new) }
    ensures cause { HasCause (D.faults disk.old) (D.faults disk.new) (IsErr result) }
{
    // Without this sync a crash could leave the gate open, and not the whole store after it.
    sync_filled(disk, name)?;
    // Until its sync a crash leaves the gate closed, or open with the whole store after it.
    open_gate(disk, name, 0)
}
