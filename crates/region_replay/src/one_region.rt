//! The replay of one region of a store that was split.

ghost use Rattle.std.specs.Prelude.{◌≡◌, ◌≢◌, ◌≤◌, ◌<◌, ◌^◌, Contains, IsTrue, IfOk, OnOk, IsErrOf};
ghost use Rattle.log_model.specs.declared.name.Name.{Name as TheName};
ghost use Rattle.log_model.specs.declared.name.NameKind.TheVariants as kinds;
ghost use Rattle.log_model.specs.declared.damage.Damage.{Damage as TheDamage};
ghost use Rattle.log_model.specs.Files.{Files, IsAbsent, IsPresent, content};
ghost use Rattle.disk_images.specs.Crash.{IsImageNow};
ghost use Rattle.disk_images.specs.Calls.{HasCause};
ghost use Rattle.recovery_laws.specs.Alike.{AllAlike};
ghost use Rattle.found_files.specs.Found.{AreContents};
ghost use Rattle.found_files.specs.OfRegion.{AreNamesOf, IsDamageIn};
ghost use Rattle.found_files.specs.Sorted.{AreOrdered, AllAgree};
ghost use Rattle.found_files.specs.Refusal.{IfDamage};
ghost use Rattle.wal_split.specs.Held.{IsHeld, IsSplit};
ghost use Rattle.wal_split.specs.Moments.{During};
ghost use Rattle.region_replay.specs.Alone.{IsPinned};
ghost use Rattle.region_replay.specs.Names.{AreThere, store_name, IsElsewhere};
ghost use Rattle.region_replay.specs.Opened.{AtMostOneHigher};
ghost use Rattle.region_replay.specs.Ready.{IsOf};
ghost use Rattle.region_replay.specs.Stored.{StoresReplayed};
ghost use Rattle.region_replay.specs.Regions.{IsInOrder, IsFound};

use crate::alone::region_of;
use crate::clearing::clear;
use crate::found::{RegionFiles, Replayed};
use crate::region::replay_region;
use disk_images::Disk;
use found_files::{RegionFinding, SplitRefusal, find_region};
use log_file::FileRefusal;
use std::alloc::Global;

/// Replays one region, 1 to 64, of a store that was split: reads and checks the region's store and edits files, each once,
/// writes what is unflushed as its next store, removes its edits files, and makes durable that they are gone. No other file
/// is read or changed. `IsSplit` is what `split` leaves with Ok, and each replay after it; no name of a store is gone then.
/// `Memory` comes too where no number up to 2^63 is left for the region's next store.
pub fn replay<D: Disk>(alloc: Global, disk: &mut D, region: u32) -> Result<Replayed, SplitRefusal>
    requires region { (1 ≤ region) × (region ≤ 64) }
    requires stores { IsTrue D.told → (m : TheName) → m.kind ≡ kinds.Store → ¬ (D.view disk.old).gone m }

    // At each moment each image is fit, and recovers for every region to what the files did.
    ensures any_moment { IsTrue D.told → IsSplit (D.view disk.old)
        → During (AllAlike (D.view disk.old).files) (D.view disk.old) (D.view disk.new) }
    ensures split { IsTrue D.told → IsSplit (D.view disk.old) → OnOk result (IsSplit (D.view disk.new)) }
    // A name's number is at most one above the greatest one found.
    ensures names { IsTrue D.told → IsSplit (D.view disk.old)
        → OnOk result (AtMostOneHigher (D.view disk.old).files (D.view disk.new).files) }
    ensures replayed { IsTrue D.told → IsSplit (D.view disk.old)
        → IfOk result (λ x. IsOf (D.view disk.old).files (D.view disk.new).files region x) }
    // What it stores goes from one above the region's flushed sequence id to the last one, under the region's next number.
    ensures stored { IsTrue D.told → IsSplit (D.view disk.old)
        → IfOk result (λ x. StoresReplayed (D.view disk.old).files (D.view disk.new).files region x) }
    // No image has an edits file of the region, and nothing of other regions changed, nor a store.
    ensures no_edits { IsTrue D.told → OnOk result ((J : Files) (m : TheName) → IsImageNow (D.view disk.new) J
        → m.kind ≡ kinds.Edits → m.region ≡ region → IsAbsent J m) }
    ensures none_gone { IsTrue D.told → OnOk result ((m : TheName) → ¬ (D.view disk.new).gone m) }
    ensures others { IsTrue D.told → OnOk result ((m : TheName) → IsElsewhere region m
        → content (D.view disk.new).files m ≡ content (D.view disk.old).files m) }
    ensures stay { IsTrue D.told → OnOk result ((m : TheName) → m.kind ≡ kinds.Store → IsPresent (D.view disk.old).files m
        → content (D.view disk.new).files m ≡ content (D.view disk.old).files m) }
    // Damage is told exactly where the region's files have it.
    ensures sound { IsTrue D.told → OnOk result ((damage : TheDamage) → ¬ IsDamageIn (D.view disk.old).files region damage) }
    ensures damaged { IsTrue D.told → IfDamage result (λ damage. IsDamageIn (D.view disk.old).files region damage
        × ((D.view disk.new).files ≡ (D.view disk.old).files)) }
    ensures cause { HasCause (D.faults disk.old) (D.faults disk.new) (IsErrOf result SplitRefusal.DiskFault) }
{
    match find_region(alloc, disk, region) {
        Ok(found) => replay_read(alloc, disk, region, found),
        Err(e) => Err(e),
    }
}

/// Replays a region whose files were read.
fn replay_read<D: Disk>(
    alloc: Global,
    disk: &mut D,
    region: u32,
    found: RegionFinding,
) -> Result<Replayed, SplitRefusal>
    requires region { (1 ≤ region) × (region ≤ 64) }
    requires stores { IsTrue D.told → (m : TheName) → m.kind ≡ kinds.Store → ¬ (D.view disk.old).gone m }
    requires names { AreNamesOf (IsTrue D.told) (D.view disk.old).files region found.names.items }
    requires read { AreContents (IsTrue D.told) (D.view disk.old).files found.names.items
        found.files.entries.items found.files.stores.items }
    requires ordered { AreOrdered found.files.entries.items }
    requires agree { AllAgree found.files.entries.items }

    ensures any_moment { IsTrue D.told → IsSplit (D.view disk.old)
        → During (AllAlike (D.view disk.old).files) (D.view disk.old) (D.view disk.new) }
    ensures split { IsTrue D.told → IsSplit (D.view disk.old) → OnOk result (IsSplit (D.view disk.new)) }
    ensures names { IsTrue D.told → IsSplit (D.view disk.old)
        → OnOk result (AtMostOneHigher (D.view disk.old).files (D.view disk.new).files) }
    ensures replayed { IsTrue D.told → IsSplit (D.view disk.old)
        → IfOk result (λ x. IsOf (D.view disk.old).files (D.view disk.new).files region x) }
    ensures stored { IsTrue D.told → IsSplit (D.view disk.old)
        → IfOk result (λ x. StoresReplayed (D.view disk.old).files (D.view disk.new).files region x) }
    ensures no_edits { IsTrue D.told → OnOk result ((J : Files) (m : TheName) → IsImageNow (D.view disk.new) J
        → m.kind ≡ kinds.Edits → m.region ≡ region → IsAbsent J m) }
    ensures none_gone { IsTrue D.told → OnOk result ((m : TheName) → ¬ (D.view disk.new).gone m) }
    ensures others { IsTrue D.told → OnOk result ((m : TheName) → IsElsewhere region m
        → content (D.view disk.new).files m ≡ content (D.view disk.old).files m) }
    ensures stay { IsTrue D.told → OnOk result ((m : TheName) → m.kind ≡ kinds.Store → IsPresent (D.view disk.old).files m
        → content (D.view disk.new).files m ≡ content (D.view disk.old).files m) }
    ensures undamaged { IfDamage result (λ damage. ⊥) }
    ensures cause { HasCause (D.faults disk.old) (D.faults disk.new) (IsErrOf result SplitRefusal.DiskFault) }
{
    let files = region_of(alloc, region, found)?;
    // A match, since the proof goes by the branches.
    match replay_and_clear(alloc, disk, files) {
        Ok(replayed) => Ok(replayed),
        Err(FileRefusal::Memory) => Err(SplitRefusal::Memory),
        Err(FileRefusal::DiskFault) => Err(SplitRefusal::DiskFault),
    }
}

/// What `replay_region` does, and then makes durable which files are there.
fn replay_and_clear<D: Disk>(
    alloc: Global,
    disk: &mut D,
    found: RegionFiles,
) -> Result<Replayed, FileRefusal>
    requires order { IsInOrder (IsTrue D.told) found }
    requires absent { IsTrue D.told → IsAbsent (D.view disk.old).files (store_name found.region found.next_store)
        × (¬ (D.view disk.old).gone (store_name found.region found.next_store)) }
    requires there { IsTrue D.told → AreThere (D.view disk.old).files found.edits.items }

    ensures any_moment { IsTrue D.told → (base : Files) → IsHeld base (D.view disk.old)
        → IsFound (D.view disk.old).files found → During (AllAlike base) (D.view disk.old) (D.view disk.new) }
    ensures held { IsTrue D.told → (base : Files) → IsHeld base (D.view disk.old)
        → IsFound (D.view disk.old).files found → OnOk result (IsHeld base (D.view disk.new)) }
    ensures replayed { IsTrue D.told → (base : Files) → IsHeld base (D.view disk.old)
        → IsFound (D.view disk.old).files found
        → IfOk result (λ x. IsOf (D.view disk.old).files (D.view disk.new).files found.region x) }
    ensures stored { IsTrue D.told → IsFound (D.view disk.old).files found
        → IfOk result (λ x. StoresReplayed (D.view disk.old).files (D.view disk.new).files found.region x) }
    ensures no_edits { IsTrue D.told → OnOk result ((m : TheName) → Contains found.edits.items m
        → IsAbsent (D.view disk.new).files m) }
    ensures others { IsTrue D.told → OnOk result ((m : TheName) → m ≢ store_name found.region found.next_store
        → ((n : TheName) → Contains found.edits.items n → m ≢ n)
        → content (D.view disk.new).files m ≡ content (D.view disk.old).files m) }
    ensures pinned { IsTrue D.told → OnOk result (IsPinned (D.view disk.new)) }
    ensures cause { HasCause (D.faults disk.old) (D.faults disk.new) (IsErrOf result FileRefusal.DiskFault) }
{
    let replayed = replay_region(alloc, disk, found)?;
    match clear(disk) {
        Ok(()) => Ok(replayed),
        Err(_) => Err(FileRefusal::DiskFault),
    }
}
