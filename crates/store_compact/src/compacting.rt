//! Compaction of a region.

ghost use Rattle.std.specs.Prelude.{◌≡◌, ◌≤◌, ◌<◌, ℕ, Contains, IsTrue, IfOk, OnOk, IsErrOf};
ghost use Rattle.log_model.specs.declared.name.Name.{Name as TheName};
ghost use Rattle.log_model.specs.Files.{Files, IsFit, content};
ghost use Rattle.log_model.specs.Damage.{IsFirstDamageOf};
ghost use Rattle.disk_images.specs.Crash.{IsImageNow};
ghost use Rattle.disk_images.specs.Calls.{HasCause};
ghost use Rattle.found_files.specs.Found.{AreContents};
ghost use Rattle.found_files.specs.OfRegion.{AreNamesOf};
ghost use Rattle.found_files.specs.Watching.{OnlyWatches};
ghost use Rattle.wal_split.specs.Moments.{During};
ghost use Rattle.store_compact.specs.Compacting.{WasOrCompacted, WasOrCompactedIn, IsCompacted, IsCompactedIn};
ghost use Rattle.store_compact.specs.Compacting.{HasOneStore, AreCounts, HasCounting, least_files, IsOtherFile};
ghost use Rattle.store_compact.specs.Ready.{IsAtRest, IfDamaged, IfNothing, IfRead};

use crate::kind::{CompactKind, Compacted};
use crate::numbering::number_above;
use crate::range::range_of;
use crate::refusal::{CompactRefusal, refused};
use crate::replacing::replace_stores;
use disk_images::{Disk, Name, NameKind};
use found_files::{FoundFiles, RegionFinding, counting_stores, find_region};
use std::alloc::Global;
use store_file::FileRefusal;

/// Compacts a region, 1 to 64, of a store that was opened and is served by nobody: one store file of the scope 1 takes the
/// place of the region's others, under the next number. Each of these is read and checked first. `Memory` comes before the
/// first create. No name of the store may have a number above 2^63, as an opening leaves it; where the disk doesn't tell its
/// names, a store file of the region with such a number is told as damaged at 0.
pub fn compact<D: Disk>(
    alloc: Global,
    disk: &mut D,
    region: u32,
    kind: CompactKind,
) -> Result<Compacted, CompactRefusal>
    requires region { (1 ≤ region) × (region ≤ 64) }
    requires rest { IsTrue D.told → IsAtRest (D.view disk.old) }

    // At each moment each image has the region as it was found or compacted, and all else as it was found.
    ensures any_moment { IsTrue D.told → IsFit (D.view disk.old).files
        → During (WasOrCompacted (D.view disk.old).files region kind) (D.view disk.old) (D.view disk.new) }
    ensures compacted { IsTrue D.told → IsFit (D.view disk.old).files → OnOk result ((J : Files) → IsImageNow (D.view disk.new) J
        → IsCompacted (D.view disk.old).files region kind J × HasOneStore (D.view disk.old).files region J) }
    // The same of the region alone, whatever the store files of other regions are.
    ensures region { IsTrue D.told
        → During (WasOrCompactedIn (D.view disk.old).files region kind) (D.view disk.old) (D.view disk.new) }
    ensures region_compacted { IsTrue D.told → OnOk result ((J : Files) → IsImageNow (D.view disk.new) J
        → IsCompactedIn (D.view disk.old).files region kind J × HasOneStore (D.view disk.old).files region J) }
    ensures others { IsTrue D.told → (m : TheName) → IsOtherFile region m
        → content (D.view disk.new).files m ≡ content (D.view disk.old).files m }
    ensures counts { IsTrue D.told → IfOk result (AreCounts (D.view disk.old).files region kind) }

    // There is nothing to do exactly where too few store files count, and damage is told exactly where the region's store
    // files have it.
    ensures enough { IsTrue D.told → OnOk result ((n : ℕ) × HasCounting (D.view disk.old).files region n × (least_files kind ≤ n)) }
    ensures nothing { IsTrue D.told
        → IfNothing result (λ n. HasCounting (D.view disk.old).files region n × (n < least_files kind) × OnlyWatches (D.view disk.old) (D.view disk.new)) }
    ensures sound { IsTrue D.told → IfRead result ((name : TheName) (at : ℕ) → ¬ IsFirstDamageOf (D.view disk.old).files region name at) }
    ensures damaged { IsTrue D.told
        → IfDamaged result (λ name at. IsFirstDamageOf (D.view disk.old).files region name at × OnlyWatches (D.view disk.old) (D.view disk.new)) }
    ensures memory { IsTrue D.told → IsErrOf result CompactRefusal.Memory → OnlyWatches (D.view disk.old) (D.view disk.new) }
    ensures cause { HasCause (D.faults disk.old) (D.faults disk.new) (IsErrOf result CompactRefusal.DiskFault) }
{
    match find_region(alloc, disk, region) {
        Ok(found) => compact_found(alloc, disk, region, kind, found),
        Err(e) => Err(refused(e)),
    }
}

/// Compacts a region whose files were read.
fn compact_found<D: Disk>(
    alloc: Global,
    disk: &mut D,
    region: u32,
    kind: CompactKind,
    found: RegionFinding,
) -> Result<Compacted, CompactRefusal>
    requires region { region ≤ 64 }
    requires rest { IsTrue D.told → IsAtRest (D.view disk.old) }
    requires names { AreNamesOf (IsTrue D.told) (D.view disk.old).files region found.names.items }
    requires read { AreContents (IsTrue D.told) (D.view disk.old).files found.names.items
        found.files.entries.items found.files.stores.items }

    ensures any_moment { IsTrue D.told → IsFit (D.view disk.old).files
        → During (WasOrCompacted (D.view disk.old).files region kind) (D.view disk.old) (D.view disk.new) }
    ensures compacted { IsTrue D.told → IsFit (D.view disk.old).files → OnOk result ((J : Files) → IsImageNow (D.view disk.new) J
        → IsCompacted (D.view disk.old).files region kind J × HasOneStore (D.view disk.old).files region J) }
    ensures region { IsTrue D.told
        → During (WasOrCompactedIn (D.view disk.old).files region kind) (D.view disk.old) (D.view disk.new) }
    ensures region_compacted { IsTrue D.told → OnOk result ((J : Files) → IsImageNow (D.view disk.new) J
        → IsCompactedIn (D.view disk.old).files region kind J × HasOneStore (D.view disk.old).files region J) }
    ensures others { IsTrue D.told → (m : TheName) → IsOtherFile region m
        → content (D.view disk.new).files m ≡ content (D.view disk.old).files m }
    ensures counts { IsTrue D.told → IfOk result (AreCounts (D.view disk.old).files region kind) }
    ensures enough { IsTrue D.told → OnOk result ((n : ℕ) × HasCounting (D.view disk.old).files region n × (least_files kind ≤ n)) }
    ensures nothing { IsTrue D.told → IfNothing result (λ n. HasCounting (D.view disk.old).files region n × (n < least_files kind)) }
    ensures nothing_done { IfNothing result (λ n. disk.new ≡ disk.old) }
    ensures undamaged { IsTrue D.told → IfDamaged result (λ name at. ⊥) }
    ensures memory { IsErrOf result CompactRefusal.Memory → disk.new ≡ disk.old }
    ensures cause { HasCause (D.faults disk.old) (D.faults disk.new) (IsErrOf result CompactRefusal.DiskFault) }
{
    let RegionFinding { names, files } = found;
    let FoundFiles { stores, .. } = files;
    let number = match number_above(&names) {
        Ok(number) => number,
        Err(name) => return Err(CompactRefusal::Damaged { name, at: 0 }),
    };
    let stores = counting_stores(alloc, stores)?;
    let files = stores.len() as u64;
    if kind.is_too_few(files) {
        return Err(CompactRefusal::NothingToCompact { files });
    }
    let (from, to) = range_of(&stores);
    let name = Name {
        kind: NameKind::Store,
        region,
        number,
    };
    match replace_stores(alloc, disk, name, from, to, kind, &names, stores) {
        Ok(compacted) => Ok(compacted),
        Err(FileRefusal::Memory) => Err(CompactRefusal::Memory),
        Err(FileRefusal::DiskFault) => Err(CompactRefusal::DiskFault),
    }
}
