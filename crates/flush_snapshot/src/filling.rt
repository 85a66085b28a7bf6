//! Filling a store file with the rows of a segment.

ghost use Rattle.std.specs.Prelude.{◌≡◌, ◌≤◌, ◌<◌, ◌+◌, ◌^◌, ℕ, [], ◌++◌, List, length, IsTrue, IfOk, OnOk, IsErr};
ghost use Rattle.cell_model.specs.Order.{NumberedCell};
ghost use Rattle.cell_model.specs.declared.form.Form.TheVariants.{Tagged};
ghost use Rattle.log_model.specs.StoreText.{IsStore, store_text};
ghost use Rattle.disk_images.specs.Crash.{Throughout, OnlyAt};
ghost use Rattle.disk_images.specs.OneFile.{Touches, IsDurableFile};
ghost use Rattle.disk_images.specs.Calls.{HasCause};
ghost use Rattle.recovery_laws.specs.Kept.{IsNotThere};
ghost use Rattle.store_file.specs.Open.{IsAlike, IsFilling, store_of};
ghost use Rattle.store_file.specs.Whole.{IsWholeOrNot};

use disk_images::Disk;
use mem_segments::Row;
use store_file::{DiskFault, StoreFile};

/// Fills a store file that has no cell yet with these rows, which are as many as it is to have, in order and in range, and
/// commits it. It takes no memory.
pub fn write_rows<D: Disk>(disk: &mut D, store: StoreFile, rows: &[Row]) -> Result<(), DiskFault>
    requires filling { IsTrue D.told → IsFilling store (D.view disk.old) [] }
    requires empty { store.filled ≡ 0 }
    requires whole { IsStore (store_of store rows.now) }
    requires count { store.count ≡ length rows.now }

    ensures stored { IsTrue D.told → OnOk result (IsDurableFile (D.view disk.new) store.name (store_text Tagged (store_of store rows.now))) }
    ensures any_moment { IsTrue D.told
        → Throughout (OnlyAt store.name (IsWholeOrNot (store_text Tagged (store_of store rows.now))) (D.view disk.old)) (length rows.now + 4)
        (D.view disk.old) (D.view disk.new) }
    ensures touches { IsTrue D.told → Touches store.name (D.view disk.old) (D.view disk.new) }
    ensures cause { HasCause (D.faults disk.old) (D.faults disk.new) (IsErr result) }
{
    let mut store = store;
    fill_rows(disk, &mut store, rows)?;
    store.commit(disk)
}

/// Fills a store file that has no cell yet with these rows.
fn fill_rows<D: Disk>(disk: &mut D, store: &mut StoreFile, rows: &[Row]) -> Result<(), DiskFault>
    requires { IsTrue D.told → IsFilling store.old (D.view disk.old) [] }

    ensures filled { IsTrue D.told → OnOk result (IsFilling store.new (D.view disk.new) rows.now) }
    ensures any_moment { IsTrue D.told → Throughout (OnlyAt store.old.name IsNotThere (D.view disk.old)) (length rows.now) (D.view disk.old) (D.view disk.new) }
    ensures shape { IsAlike store.old store.new }
    ensures counted { OnOk result (store.new.filled ≡ store.old.filled + length rows.now) }
    ensures touches { IsTrue D.told → Touches store.old.name (D.view disk.old) (D.view disk.new) }
    ensures cause { HasCause (D.faults disk.old) (D.faults disk.new) (IsErr result) }
{
    for row in rows {
        store.fill(disk, row.number(), row.cell())?;
    }
    Ok(())
}
