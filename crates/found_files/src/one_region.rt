//! What stands in the files of one region.

ghost use Rattle.std.specs.Prelude.{◌≡◌, ◌≤◌, ◌++◌, ◌∷◌, [], ℕ, List, Contains, AllPairs, IsTrue, IfOk, OnOk, IsErrOf};
ghost use Rattle.std.specs.declared.cmp.Ordering.TheVariants.{Less};
ghost use Rattle.log_model.specs.declared.name.Name.{Name as TheName};
ghost use Rattle.log_model.specs.declared.damage.Damage.{Damage as TheDamage};
ghost use Rattle.log_model.specs.Files.{Reads, name_cmp};
ghost use Rattle.disk_images.specs.Calls.{HasCause};
ghost use Rattle.found_files.specs.Found.{AreContents};
ghost use Rattle.found_files.specs.OfRegion.{names_of, AreNamesOf, IsFirstHurt, IsDamageIn};
ghost use Rattle.found_files.specs.Sorted.{AreOrdered, AllAgree};
ghost use Rattle.found_files.specs.Refusal.{IfDamage};
ghost use Rattle.found_files.specs.Watching.{OnlyWatches};

use crate::checking::read_file;
use crate::finding::in_agreement;
use crate::found::{FoundFiles, RegionFinding};
use crate::refusal::SplitRefusal;
use disk_images::{Disk, Name, NameKind};
use kv_cell::NoMemory;
use std::alloc::Global;

/// Reads and checks the store and edits files of one region, each once, and no other file. Nothing is written, and nothing
/// is made durable. The number of a name is no damage here. Damage is told exactly where the region's files have it.
pub fn find_region<D: Disk>(
    alloc: Global,
    disk: &mut D,
    region: u32,
) -> Result<RegionFinding, SplitRefusal>
    requires { 1 ≤ region }

    ensures names { IfOk result (λ found. AreNamesOf (IsTrue D.told) (D.view disk.old).files region found.names.items) }
    ensures read { IfOk result (λ found. AreContents (IsTrue D.told) (D.view disk.old).files found.names.items
        found.files.entries.items found.files.stores.items) }
    ensures ordered { IfOk result (λ found. AreOrdered found.files.entries.items) }
    ensures agree { IfOk result (λ found. AllAgree found.files.entries.items) }
    ensures sound { IsTrue D.told → OnOk result ((damage : TheDamage) → ¬ IsDamageIn (D.view disk.old).files region damage) }
    ensures damaged { IsTrue D.told → IfDamage result (IsDamageIn (D.view disk.old).files region) }
    ensures watches { IsTrue D.told → OnlyWatches (D.view disk.old) (D.view disk.new) }
    ensures cause { HasCause (D.faults disk.old) (D.faults disk.new) (IsErrOf result SplitRefusal.DiskFault) }
{
    let names = names_in(alloc, disk, region)?;
    let files = read_each(alloc, disk, &names)?;
    let files = in_agreement(alloc, files)?;
    Ok(RegionFinding { names, files })
}

/// The names of the region's store and edits files, in their order.
fn names_in<D: Disk>(alloc: Global, disk: &mut D, region: u32) -> Result<Vec<Name>, SplitRefusal>
    ensures names { IfOk result (λ own. AreNamesOf (IsTrue D.told) (D.view disk.old).files region own.items) }
    ensures undamaged { IfDamage result (λ damage. ⊥) }
    ensures watches { IsTrue D.told → OnlyWatches (D.view disk.old) (D.view disk.new) }
    ensures cause { HasCause (D.faults disk.old) (D.faults disk.new) (IsErrOf result SplitRefusal.DiskFault) }
{
    let all = disk.names(alloc)?;
    let own = own_names(alloc, all.as_slice(), region)?;
    Ok(own)
}

/// The names of the region's store and edits files among these, in their order.
fn own_names(alloc: Global, names: &[Name], region: u32) -> Result<Vec<Name>, NoMemory>
    ensures { IfOk result (λ own. own.items ≡ names_of region names.now) }
{
    let mut own = Vec::new(alloc);
    for name in names {
        add_own(&mut own, *name, region)?;
    }
    Ok(own)
}

fn add_own(own: &mut Vec<Name>, name: Name, region: u32) -> Result<(), NoMemory>
    ensures { OnOk result (own.new.items ≡ own.old.items ++ names_of region (name ∷ [])) }
{
    match name.kind {
        NameKind::Store | NameKind::Edits => {
            if name.region == region {
                own.push(name)?;
            }
            Ok(())
        }
        NameKind::Log | NameKind::Old => Ok(()),
    }
}

/// Reads each of these files once, in the order of their names, up to the first that is damaged.
fn read_each<D: Disk>(
    alloc: Global,
    disk: &mut D,
    names: &[Name],
) -> Result<FoundFiles, SplitRefusal>
    requires there { IsTrue D.told → (m : TheName) → Contains names.now m → ∥ ((c : List ℕ) × Reads (D.view disk.old).files m c) ∥₁ }
    requires rise { IsTrue D.told → AllPairs (λ a b. name_cmp a b ≡ Less) names.now }

    ensures read { IfOk result (λ found. AreContents (IsTrue D.told) (D.view disk.old).files names.now
        found.entries.items found.stores.items) }
    ensures damaged { IsTrue D.told → IfDamage result (IsFirstHurt (D.view disk.old).files names.now) }
    ensures watches { IsTrue D.told → OnlyWatches (D.view disk.old) (D.view disk.new) }
    ensures cause { HasCause (D.faults disk.old) (D.faults disk.new) (IsErrOf result SplitRefusal.DiskFault) }
{
    let mut found = FoundFiles::new(alloc);
    for name in names {
        read_file(alloc, disk, *name, &mut found)?;
    }
    Ok(found)
}
