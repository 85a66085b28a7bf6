//! The store files that another one took the place of go.

ghost use Rattle.std.specs.Prelude.{◌≡◌, ◌≢◌, ◌+◌, ◌<◌, ℕ, List, Contains, AllPairs, length, IsTrue, OnOk, IsErr};
ghost use Rattle.std.specs.declared.cmp.Ordering.TheVariants.{Less};
ghost use Rattle.log_model.specs.declared.name.Name.{Name as TheName};
ghost use Rattle.log_model.specs.declared.name.NameKind.TheVariants as kinds;
ghost use Rattle.log_model.specs.Files.{Files, Reads, IsAbsent, SameBut, content, name_cmp};
ghost use Rattle.disk_images.specs.Crash.{IsImageNow, Throughout};
ghost use Rattle.disk_images.specs.Calls.{HasCause, Removes};
ghost use Rattle.store_compact.specs.Plan.{IsReplaced, IsReplacing};

use disk_images::{Disk, Failed, Name, NameKind};

/// Removes each of these files that is a store, and makes durable that they are gone.
pub(crate) fn remove_stores<D: Disk>(disk: &mut D, names: &[Name]) -> Result<(), Failed>
    requires there { IsTrue D.told → (m : TheName) → Contains names.now m → ∥ ((c : List ℕ) × Reads (D.view disk.old).files m c) ∥₁ }
    requires rise { IsTrue D.told → AllPairs (λ a b. name_cmp a b ≡ Less) names.now }

    ensures any_moment { IsTrue D.told → (found : Files) (name : TheName) (text : List ℕ) → IsReplacing found name text (D.view disk.old)
        → ((m : TheName) → Contains names.now m → (m.region ≡ name.region) × (m ≢ name))
        → Throughout (IsReplaced found name text) (length names.now + 1) (D.view disk.old) (D.view disk.new) }
    ensures replaced { IsTrue D.told → (found : Files) (name : TheName) (text : List ℕ) → IsReplacing found name text (D.view disk.old)
        → ((m : TheName) → Contains names.now m → (m.region ≡ name.region) × (m ≢ name))
        → OnOk result ((J : Files) → IsImageNow (D.view disk.new) J → IsReplaced found name text J) }
    // No image has one of them.
    ensures gone { IsTrue D.told → OnOk result ((J : Files) (m : TheName) → IsImageNow (D.view disk.new) J → Contains names.now m
        → m.kind ≡ kinds.Store → IsAbsent J m) }
    ensures others { IsTrue D.told → (m : TheName) → (Contains names.now m → m.kind ≢ kinds.Store)
        → content (D.view disk.new).files m ≡ content (D.view disk.old).files m }
    ensures cause { HasCause (D.faults disk.old) (D.faults disk.new) (IsErr result) }
{
    remove_each(disk, names)?;
    disk.settle()
}

/// Removes each of these files that is a store.
fn remove_each<D: Disk>(disk: &mut D, names: &[Name]) -> Result<(), Failed>
    requires there { IsTrue D.told → (m : TheName) → Contains names.now m → ∥ ((c : List ℕ) × Reads (D.view disk.old).files m c) ∥₁ }
    requires rise { IsTrue D.told → AllPairs (λ a b. name_cmp a b ≡ Less) names.now }

    ensures any_moment { IsTrue D.told → (found : Files) (name : TheName) (text : List ℕ) → IsReplacing found name text (D.view disk.old)
        → ((m : TheName) → Contains names.now m → (m.region ≡ name.region) × (m ≢ name))
        → Throughout (IsReplaced found name text) (length names.now) (D.view disk.old) (D.view disk.new) }
    ensures replacing { IsTrue D.told → (found : Files) (name : TheName) (text : List ℕ) → IsReplacing found name text (D.view disk.old)
        → ((m : TheName) → Contains names.now m → (m.region ≡ name.region) × (m ≢ name))
        → OnOk result (IsReplacing found name text (D.view disk.new)) }
    ensures gone { IsTrue D.told → OnOk result ((m : TheName) → Contains names.now m → m.kind ≡ kinds.Store
        → IsAbsent (D.view disk.new).files m) }
    ensures others { IsTrue D.told → (m : TheName) → (Contains names.now m → m.kind ≢ kinds.Store)
        → content (D.view disk.new).files m ≡ content (D.view disk.old).files m }
    ensures cause { HasCause (D.faults disk.old) (D.faults disk.new) (IsErr result) }
{
    for name in names {
        remove_one(disk, *name)?;
    }
    Ok(())
}

/// Removes a file that is a store.
fn remove_one<D: Disk>(disk: &mut D, name: Name) -> Result<(), Failed>
    requires { IsTrue D.told → ∥ ((c : List ℕ) × Reads (D.view disk.old).files name c) ∥₁ }
    ensures store { IsTrue D.told → name.kind ≡ kinds.Store → Removes name result (D.view disk.old) (D.view disk.new) }
    ensures other { name.kind ≢ kinds.Store → disk.new ≡ disk.old }
    ensures cause { HasCause (D.faults disk.old) (D.faults disk.new) (IsErr result) }
{
    match name.kind {
        NameKind::Store => disk.remove(name),
        NameKind::Log | NameKind::Old | NameKind::Edits => Ok(()),
    }
}
