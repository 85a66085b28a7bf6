//! Filling a file after a durable front, by several writes and one sync.

ghost use Rattle.std.specs.Prelude.{◌≡◌, ◌≤◌, ◌<◌, ◌+◌, ◌^◌, ℕ, List, length, ◌++◌, IsTrue, OnOk, IsErr};
ghost use Rattle.disk_images.specs.Crash.{Throughout, OnlyAt};
ghost use Rattle.disk_images.specs.OneFile.{Touches, IsDurableFile};
ghost use Rattle.disk_images.specs.Gate.{IsFronted, IsFilled};
ghost use Rattle.disk_images.specs.Calls.{HasCause};

use crate::{Disk, Failed, Name};

/// Writes at the end of a file, after its front. It makes one disk call.
pub fn write_behind<D: Disk>(disk: &mut D, name: Name, at: u64, bytes: &[u8]) -> Result<(), Failed>
    requires filled { IsTrue D.told → ∥ ((front : List ℕ) × (text : List ℕ) × IsFilled (D.view disk.old) name front text × (at ≡ length text)) ∥₁ }
    requires some { 0 < length bytes.now }

    ensures fits { OnOk result (at + length bytes.now < 2 ^ 63) }
    ensures filled { IsTrue D.told → (front text : List ℕ) → IsFilled (D.view disk.old) name front text → at ≡ length text
        → OnOk result (IsFilled (D.view disk.new) name front (text ++ bytes.now)) }
    ensures any_moment { IsTrue D.told → (front text : List ℕ) → IsFilled (D.view disk.old) name front text → at ≡ length text
        → Throughout (OnlyAt name (IsFronted front) (D.view disk.old)) 1 (D.view disk.old) (D.view disk.new) }
    ensures touches { IsTrue D.told → Touches name (D.view disk.old) (D.view disk.new) }
    ensures cause { HasCause (D.faults disk.old) (D.faults disk.new) (IsErr result) }
{
    disk.write_at(name, at, bytes)
}

/// Makes a filled file durable. It makes one disk call.
pub fn sync_filled<D: Disk>(disk: &mut D, name: Name) -> Result<(), Failed>
    requires filled { IsTrue D.told → ∥ ((front : List ℕ) × (text : List ℕ) × IsFilled (D.view disk.old) name front text) ∥₁ }

    ensures durable { IsTrue D.told → (front text : List ℕ) → IsFilled (D.view disk.old) name front text
        → OnOk result (IsDurableFile (D.view disk.new) name text) }
    ensures any_moment { IsTrue D.told → (front text : List ℕ) → IsFilled (D.view disk.old) name front text
        → Throughout (OnlyAt name (IsFronted front) (D.view disk.old)) 1 (D.view disk.old) (D.view disk.new) }
    ensures touches { IsTrue D.told → Touches name (D.view disk.old) (D.view disk.new) }
    ensures cause { HasCause (D.faults disk.old) (D.faults disk.new) (IsErr result) }
{
    disk.sync(name)
}
