//! A durable file gets another name, or goes.

ghost use Rattle.std.specs.Prelude.{ℕ, List, IsTrue, OnOk, IsErr};
ghost use Rattle.log_model.specs.Files.{IsAbsent, IsName};
ghost use Rattle.disk_images.specs.Crash.{Throughout, OnlyAt};
ghost use Rattle.disk_images.specs.OneFile.{IsDurableFile};
ghost use Rattle.disk_images.specs.Moved.{HasEitherName, TouchesBoth, IsWholeOrGone, TakesAway};
ghost use Rattle.disk_images.specs.Calls.{Renamed, HasCause};

use crate::{Disk, Failed, Name};

/// Gives a durable file another name, which is neither there nor gone, in one disk call. Until the names are settled a crash
/// leaves the file under exactly one of its two names, and each other file as it was.
pub fn rename_durable<D: Disk>(disk: &mut D, from: Name, to: Name) -> Result<(), Failed>
    requires durable { IsTrue D.told → ∥ ((bytes : List ℕ) × IsDurableFile (D.view disk.old) from bytes) ∥₁ }
    requires free { IsTrue D.told → IsAbsent (D.view disk.old).files to × (¬ (D.view disk.old).gone to) }
    requires named { IsName to }

    ensures renamed { IsTrue D.told → OnOk result (Renamed from to (D.view disk.old).files (D.view disk.new).files) }
    ensures any_moment { IsTrue D.told → (bytes : List ℕ) → IsDurableFile (D.view disk.old) from bytes
        → Throughout (HasEitherName from to bytes (D.view disk.old)) 1 (D.view disk.old) (D.view disk.new) }
    ensures touches { IsTrue D.told → TouchesBoth from to (D.view disk.old) (D.view disk.new) }
    ensures cause { HasCause (D.faults disk.old) (D.faults disk.new) (IsErr result) }
{
    disk.rename(from, to)
}

/// Removes a durable file, in one disk call. Until the names are settled a crash leaves the file whole or not at all, and
/// each other file as it was.
pub fn remove_durable<D: Disk>(disk: &mut D, name: Name) -> Result<(), Failed>
    requires { IsTrue D.told → ∥ ((bytes : List ℕ) × IsDurableFile (D.view disk.old) name bytes) ∥₁ }

    ensures removed { IsTrue D.told → OnOk result (IsAbsent (D.view disk.new).files name) }
    ensures any_moment { IsTrue D.told → (bytes : List ℕ) → IsDurableFile (D.view disk.old) name bytes
        → Throughout (OnlyAt name (IsWholeOrGone bytes) (D.view disk.old)) 1 (D.view disk.old) (D.view disk.new) }
    ensures takes_away { IsTrue D.told → TakesAway name (D.view disk.old) (D.view disk.new) }
    ensures cause { HasCause (D.faults disk.old) (D.faults disk.new) (IsErr result) }
{
    disk.remove(name)
}
