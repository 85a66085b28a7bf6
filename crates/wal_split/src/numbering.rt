//! The numbers of logs, and of the edits files that a split writes.

ghost use Rattle.std.specs.Prelude.{◌≡◌, ◌≢◌, ◌⊎◌, ◌++◌, ◌∷◌, [], ◌≤◌, ◌<◌, ◌^◌, ◌+◌, Contains, IfOk, OnOk};
ghost use Rattle.log_model.specs.declared.name.Name.{Name as TheName};
ghost use Rattle.log_model.specs.declared.name.NameKind.TheVariants as kinds;
ghost use Rattle.wal_split.specs.Numbers.{logs_of};

use disk_images::{Name, NameKind};
use kv_cell::NoMemory;
use std::alloc::Global;

/// The numbers of the logs among these names, in the order of the names.
pub(crate) fn log_numbers(alloc: Global, names: &[Name]) -> Result<Vec<u64>, NoMemory>
    ensures { IfOk result (λ numbers. numbers.items ≡ logs_of names.now) }
{
    let mut numbers = Vec::new(alloc);
    for name in names {
        add_log(&mut numbers, *name)?;
    }
    Ok(numbers)
}

fn add_log(numbers: &mut Vec<u64>, name: Name) -> Result<(), NoMemory>
    ensures { OnOk result (numbers.new.items ≡ numbers.old.items ++ logs_of (name ∷ [])) }
{
    match name.kind {
        NameKind::Log => {
            numbers.push(name.number)?;
            Ok(())
        }
        NameKind::Old | NameKind::Store | NameKind::Edits => Ok(()),
    }
}

/// One above the greatest number of a log, an old log or an edits file, 1 where there is none.
pub(crate) fn next_number(names: &[Name]) -> u64
    requires { (m : TheName) → Contains names.now m → m.number ≤ 2 ^ 62 }
    ensures above { (m : TheName) → Contains names.now m → m.kind ≢ kinds.Store → m.number < result }
    ensures low { result ≤ 2 ^ 62 + 1 }
    ensures next { (result ≡ 1) ⊎ ((m : TheName) × Contains names.now m × (m.kind ≢ kinds.Store) × (result ≡ m.number + 1)) }
{
    let mut greatest = 0;
    for name in names {
        greatest = greater(greatest, counted(*name));
    }
    greatest + 1
}

/// The greater of two numbers.
fn greater(a: u64, b: u64) -> u64
    ensures left { a ≤ result }
    ensures right { b ≤ result }
    ensures one { (result ≡ a) ⊎ (result ≡ b) }
{
    if a < b { b } else { a }
}

/// The number of a name, 0 of a store file's.
fn counted(name: Name) -> u64
    ensures other { name.kind ≢ kinds.Store → result ≡ name.number }
    ensures low { result ≤ name.number }
    ensures one { (result ≡ 0) ⊎ ((name.kind ≢ kinds.Store) × (result ≡ name.number)) }
{
    match name.kind {
        NameKind::Store => 0,
        NameKind::Log | NameKind::Old | NameKind::Edits => name.number,
    }
}
