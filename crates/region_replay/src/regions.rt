//! The replay of the regions, one after the other.

ghost use Rattle.std.specs.Prelude.{◌≡◌, ◌++◌, ◌∷◌, [], ◌+◌, Contains, length, IsTrue, IfOk, OnOk, IsErrOf};
ghost use Rattle.log_model.specs.declared.name.Name.{Name as TheName};
ghost use Rattle.log_model.specs.declared.name.NameKind.TheVariants as kinds;
ghost use Rattle.log_model.specs.Files.{Files, content};
ghost use Rattle.disk_images.specs.Calls.{HasCause};
ghost use Rattle.recovery_laws.specs.Alike.{AllAlike};
ghost use Rattle.region_replay.specs.declared.found.RegionFiles.{RegionFiles as TheFiles};
ghost use Rattle.wal_split.specs.Held.{IsHeld};
ghost use Rattle.wal_split.specs.Moments.{During};
ghost use Rattle.region_replay.specs.Regions.{IsInOrder};
ghost use Rattle.region_replay.specs.Whole.{AreApart, AreFound, AllOf, AllStoresReplayed, HaveNoEdits, NoNewNames};

use crate::found::{RegionFiles, Replayed};
use crate::region::replay_region;
use disk_images::Disk;
use kv_cell::NoMemory;
use log_file::FileRefusal;
use std::alloc::Global;

/// Replays these regions in turn: what is unflushed of each goes into its next store, and its edits files go.
pub(crate) fn replay_regions<D: Disk>(
    alloc: Global,
    disk: &mut D,
    regions: Vec<RegionFiles>,
) -> Result<Vec<Replayed>, FileRefusal>
    requires order { (x : TheFiles) → Contains regions.items x → IsInOrder (IsTrue D.told) x }
    requires apart { AreApart regions.items }
    requires found { IsTrue D.told → ∥ ((base : Files) × IsHeld base (D.view disk.old)
        × AreFound (D.view disk.old).files regions.items) ∥₁ }

    ensures any_moment { IsTrue D.told → (base : Files) → IsHeld base (D.view disk.old)
        → AreFound (D.view disk.old).files regions.items → During (AllAlike base) (D.view disk.old) (D.view disk.new) }
    ensures held { IsTrue D.told → (base : Files) → IsHeld base (D.view disk.old)
        → AreFound (D.view disk.old).files regions.items → OnOk result (IsHeld base (D.view disk.new)) }
    ensures replayed { IsTrue D.told → (base : Files) → IsHeld base (D.view disk.old)
        → AreFound (D.view disk.old).files regions.items
        → IfOk result (λ xs. AllOf (D.view disk.old).files (D.view disk.new).files regions.items xs.items) }
    ensures stored { IsTrue D.told → (base : Files) → IsHeld base (D.view disk.old)
        → AreFound (D.view disk.old).files regions.items
        → IfOk result (λ xs. AllStoresReplayed (D.view disk.old).files (D.view disk.new).files regions.items xs.items) }
    ensures no_edits { IsTrue D.told → (base : Files) → IsHeld base (D.view disk.old)
        → AreFound (D.view disk.old).files regions.items
        → OnOk result (HaveNoEdits (D.view disk.new).files regions.items) }
    ensures names { IsTrue D.told → (base : Files) → IsHeld base (D.view disk.old)
        → AreFound (D.view disk.old).files regions.items
        → OnOk result (NoNewNames (D.view disk.old).files (D.view disk.new).files regions.items) }
    ensures olds { IsTrue D.told → OnOk result ((m : TheName) → m.kind ≡ kinds.Old
        → content (D.view disk.new).files m ≡ content (D.view disk.old).files m) }
    ensures count { IfOk result (λ xs. length xs.items ≡ length regions.items) }
    ensures cause { HasCause (D.faults disk.old) (D.faults disk.new) (IsErrOf result FileRefusal.DiskFault) }
{
    let mut replayed = Vec::new(alloc);
    for region in regions {
        let next = replay_region(alloc, disk, region)?;
        keep(&mut replayed, next)?;
    }
    Ok(replayed)
}

fn keep(replayed: &mut Vec<Replayed>, next: Replayed) -> Result<(), NoMemory>
    ensures { OnOk result (replayed.new.items ≡ replayed.old.items ++ next ∷ []) }
{
    replayed.push(next)?;
    Ok(())
}
