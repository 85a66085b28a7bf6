//! A write that is durable once it has returned.

ghost use Rattle.std.specs.Prelude.{◌≡◌, ◌≤◌, ◌<◌, ◌+◌, ◌^◌, ℕ, List, length, IsTrue, OnOk, IsErr};
ghost use Rattle.log_model.specs.Files.{Reads, IsAbsent, IsName};
ghost use Rattle.disk_images.specs.Crash.{overwritten, Throughout, OnlyAt};
ghost use Rattle.disk_images.specs.OneFile.{Touches, IsUnmoved, IsDurableFile, TornAt, IsShort};
ghost use Rattle.disk_images.specs.Calls.{HasCause};

use crate::{Disk, Failed, Name};

/// Writes and syncs. At each moment a crash leaves the file as before, or with these bytes torn.
pub fn write_durably<D: Disk>(disk: &mut D, name: Name, at: u64, bytes: &[u8]) -> Result<(), Failed>
    requires there { IsTrue D.told → ∥ ((c : List ℕ) × Reads (D.view disk.old).files name c × (at ≤ length c)) ∥₁ }
    requires some { 0 < length bytes.now }
    requires unmoved { IsTrue D.told → IsUnmoved (D.view disk.old) name }

    ensures fits { OnOk result (at + length bytes.now < 2 ^ 63) }
    ensures durable { IsTrue D.told → (c : List ℕ) → Reads (D.view disk.old).files name c
        → OnOk result (IsDurableFile (D.view disk.new) name (overwritten c at bytes.now)) }
    ensures any_moment { IsTrue D.told → Throughout (TornAt name at (length bytes.now) (D.view disk.old)) 2 (D.view disk.old) (D.view disk.new) }
    ensures touches { IsTrue D.told → Touches name (D.view disk.old) (D.view disk.new) }
    ensures cause { HasCause (D.faults disk.old) (D.faults disk.new) (IsErr result) }
{
    disk.write_at(name, at, bytes)?;
    disk.sync(name)
}

/// Creates a file with these bytes, and syncs it. It makes three disk calls.
pub fn create_durably<D: Disk>(disk: &mut D, name: Name, bytes: &[u8]) -> Result<(), Failed>
    requires absent { IsTrue D.told → IsAbsent (D.view disk.old).files name × (¬ (D.view disk.old).gone name) }
    requires named { IsName name }
    requires some { 0 < length bytes.now }

    ensures durable { IsTrue D.told → OnOk result (IsDurableFile (D.view disk.new) name bytes.now) }
    ensures any_moment { IsTrue D.told → Throughout (OnlyAt name (IsShort (length bytes.now)) (D.view disk.old)) 3 (D.view disk.old) (D.view disk.new) }
    ensures touches { IsTrue D.told → Touches name (D.view disk.old) (D.view disk.new) }
    ensures cause { HasCause (D.faults disk.old) (D.faults disk.new) (IsErr result) }
{
    disk.create(name)?;
    write_durably(disk, name, 0, bytes)
}
