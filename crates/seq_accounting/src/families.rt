//! The families of a batch.

ghost use Rattle.std.specs.Prelude.{◌≡◌, ℕ, List, [], IfOk, OnOk};
ghost use Rattle.seq_accounting.specs.Marks.{IsAdded, families_in, has_family};
ghost use Rattle.seq_accounting.specs.Accounts.{AreFamiliesOf};

use crate::error::NoMemory;
use crate::mark::Mark;
use crate::marks::Marks;
use kv_cell::Batch;
use std::alloc::Global;
use std::marker::Model;

/// The families of the cells of a batch, with the memory for noting its entry: for each family a box for its region's
/// account and one for the current file. Contracts see the list of families.
#[derive(Drop)]
pub struct FamilyMarks {
    pub(crate) account: Marks,
    pub(crate) file: Marks,
}

impl Model for FamilyMarks {
    ghost use Rattle.std.specs.Prelude.{◌≡◌, ℕ, List};
    ghost use Rattle.seq_accounting.specs.Marks.{families_in, has_family};

    ghost Value = { List (List ℕ) };

    ghost view = { λ m. families_in m.account };

    ghost invariant = { λ m. (f : List ℕ) → has_family (families_in m.file) f ≡ has_family (families_in m.account) f };
}

impl FamilyMarks {
    /// No family. It takes no memory.
    pub fn none() -> FamilyMarks
        ensures { result ≡ [] }
    {
        FamilyMarks {
            account: Marks::new(),
            file: Marks::new(),
        }
    }

    /// The families of the batch's cells, each copied twice, however many cells are of it.
    pub fn of_batch(alloc: Global, batch: &Batch) -> Result<FamilyMarks, NoMemory>
        ensures { IfOk result (λ marks. AreFamiliesOf batch.now.cells marks) }
    {
        let mut account = Marks::new();
        let mut file = Marks::new();
        for cell in batch.as_slice() {
            add(alloc, &mut account, &mut file, cell.family.as_slice())?;
        }
        Ok(FamilyMarks { account, file })
    }

    /// The marks for the region's account and those for the file.
    pub(crate) fn parts(self) -> (Marks, Marks)
        ensures account { families_in result.0 ≡ self }
        ensures file { (f : List ℕ) → has_family (families_in result.1) f ≡ has_family self f }
    {
        (self.account, self.file)
    }
}

/// Adds a mark of the family to both, where there is none yet.
fn add(alloc: Global, account: &mut Marks, file: &mut Marks, family: &[u8]) -> Result<(), NoMemory>
    requires { (f : List ℕ) → has_family (families_in file.old) f ≡ has_family (families_in account.old) f }
    ensures account { OnOk result (IsAdded account.old account.new family.now) }
    ensures file { OnOk result (IsAdded file.old file.new family.now) }
{
    let number = account.get(0, family);
    if number != 0 {
        return Ok(());
    }
    let one = Mark::new(alloc, 0, family, 1)?;
    let other = Mark::new(alloc, 0, family, 1)?;
    account.put(one);
    file.put(other);
    Ok(())
}
