//! Names that the files of a store must not have.

ghost use Rattle.std.specs.Prelude.{◌≡◌, ◌↔◌, ◌++◌, ◌∷◌, [], ℕ, List, Contains, false, IsTrue, IfOk, OnOk};
ghost use Rattle.log_model.specs.declared.name.Name.{Name as TheName};
ghost use Rattle.found_files.specs.Names.{AreOldNumbers, HasOld, IsBadAmong, IsInOrder};

use kv_cell::NoMemory;
use log_model::{Name, NameKind, REGIONS};
use std::alloc::Global;

/// The greatest number of a name.
const LAST_NUMBER: u64 = 0x4000_0000_0000_0000;

/// The numbers of the old logs among these names, in order.
pub(crate) fn old_numbers(alloc: Global, names: &[Name]) -> Result<Vec<u64>, NoMemory>
    ensures { IfOk result (λ numbers. AreOldNumbers names.now numbers.items) }
{
    let mut numbers = collect_old(alloc, names)?;
    numbers.sort()?;
    Ok(numbers)
}

/// The numbers of the old logs among these names, in the order of the names.
fn collect_old(alloc: Global, names: &[Name]) -> Result<Vec<u64>, NoMemory>
    ensures { IfOk result (λ numbers. (n : ℕ) → Contains numbers.items n ↔ HasOld names.now n) }
{
    let mut numbers = Vec::new(alloc);
    for name in names {
        add_old(&mut numbers, *name)?;
    }
    Ok(numbers)
}

fn add_old(numbers: &mut Vec<u64>, name: Name) -> Result<(), NoMemory>
    ensures { OnOk result ((names : List TheName) → ((n : ℕ) → Contains numbers.old.items n ↔ HasOld names n) → (n : ℕ)
        → Contains numbers.new.items n ↔ HasOld (names ++ name ∷ []) n) }
{
    match name.kind {
        NameKind::Old => {
            numbers.push(name.number)?;
            Ok(())
        }
        NameKind::Log | NameKind::Store | NameKind::Edits => Ok(()),
    }
}

/// Whether a name is bad, where these are the numbers of the old logs in order: its number is above 2^62, its region is
/// outside 1..=64 where it is a store or edits file's, or it is a log's that has an old log's number.
pub(crate) fn is_bad(name: Name, olds: &[u64]) -> bool
    ensures bad { IsTrue result → (names : List TheName) → AreOldNumbers names olds.now → IsBadAmong names name }
    ensures good { result ≡ false → (names : List TheName) → AreOldNumbers names olds.now → ¬ IsBadAmong names name }
{
    if name.number > LAST_NUMBER {
        return true;
    }
    match name.kind {
        NameKind::Log => has_number(olds, name.number),
        NameKind::Old => false,
        NameKind::Store | NameKind::Edits => name.region == 0 || name.region > REGIONS,
    }
}

/// Whether the number is among these, which don't fall.
fn has_number(numbers: &[u64], number: u64) -> bool
    ensures there { IsTrue result → Contains numbers.now number }
    ensures none { result ≡ false → IsInOrder numbers.now → ¬ Contains numbers.now number }
{
    numbers.binary_search(&number).is_ok()
}
