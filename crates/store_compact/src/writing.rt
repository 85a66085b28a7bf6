//! The store file that takes the place of a region's others is written.

ghost use Rattle.std.specs.Prelude.{◌≡◌, ◌+◌, ℕ, length, IsTrue, IfOk, OnOk, IsErrOf};
ghost use Rattle.cell_model.specs.Order.{cells_of};
ghost use Rattle.cell_model.specs.declared.form.Form.TheVariants.{Tagged};
ghost use Rattle.mask_model.specs.Masked.{shown};
ghost use Rattle.log_model.specs.declared.name.NameKind.TheVariants as kinds;
ghost use Rattle.log_model.specs.Files.{IsAbsent};
ghost use Rattle.log_model.specs.StoreText.{IsStore, store_text};
ghost use Rattle.disk_images.specs.Crash.{Throughout, OnlyAt};
ghost use Rattle.disk_images.specs.OneFile.{Touches, IsDurableFile};
ghost use Rattle.disk_images.specs.Calls.{HasCause};
ghost use Rattle.store_file.specs.Whole.{IsWholeOrNot};
ghost use Rattle.store_compact.specs.Compacting.{kept_by};
ghost use Rattle.store_compact.specs.Plan.{whole_store};

use crate::kind::CompactKind;
use disk_images::{Disk, Name};
use flush_snapshot::write_rows;
use mem_segments::{Row, Segment};
use row_reader::mask;
use std::alloc::Global;
use store_file::{FileRefusal, StoreFile};

/// Writes what is kept of these cells as a store file of the scope 1, whose name is neither there nor gone, and gives their
/// number. Memory is taken before the first disk call.
pub(crate) fn write_kept<D: Disk>(
    alloc: Global,
    disk: &mut D,
    name: Name,
    from: u64,
    to: u64,
    kind: CompactKind,
    merged: &Segment,
) -> Result<u64, FileRefusal>
    requires absent { IsTrue D.told → IsAbsent (D.view disk.old).files name × (¬ (D.view disk.old).gone name) }
    requires kind { name.kind ≡ kinds.Store }
    requires store { IsStore (whole_store name from to (cells_of merged.now)) }

    ensures stored { IsTrue D.told → OnOk result (IsDurableFile (D.view disk.new) name
        (store_text Tagged (whole_store name from to (kept_by kind (cells_of merged.now))))) }
    // At each moment each image of the file isn't there, or is the whole store.
    ensures any_moment { IsTrue D.told → (by : ℕ) × Throughout (OnlyAt name
        (IsWholeOrNot (store_text Tagged (whole_store name from to (kept_by kind (cells_of merged.now))))) (D.view disk.old))
        by (D.view disk.old) (D.view disk.new) }
    ensures whole { IsStore (whole_store name from to (kept_by kind (cells_of merged.now))) }
    ensures count { IfOk result (λ n. n ≡ length (kept_by kind (cells_of merged.now))) }
    ensures touches { IsTrue D.told → Touches name (D.view disk.old) (D.view disk.new) }
    ensures memory { IsErrOf result FileRefusal.Memory → disk.new ≡ disk.old }
    ensures cause { HasCause (D.faults disk.old) (D.faults disk.new) (IsErrOf result FileRefusal.DiskFault) }
{
    match kind {
        CompactKind::Minor => write_whole(alloc, disk, name, from, to, merged.rows()),
        CompactKind::Major => write_shown(alloc, disk, name, from, to, merged.rows()),
    }
}

/// Writes those of these cells that a reader sees.
fn write_shown<D: Disk>(
    alloc: Global,
    disk: &mut D,
    name: Name,
    from: u64,
    to: u64,
    rows: &[Row],
) -> Result<u64, FileRefusal>
    requires absent { IsTrue D.told → IsAbsent (D.view disk.old).files name × (¬ (D.view disk.old).gone name) }
    requires kind { name.kind ≡ kinds.Store }
    requires store { IsStore (whole_store name from to rows.now) }

    ensures stored { IsTrue D.told → OnOk result (IsDurableFile (D.view disk.new) name (store_text Tagged (whole_store name from to (shown rows.now)))) }
    ensures any_moment { IsTrue D.told → (by : ℕ) × Throughout (OnlyAt name
        (IsWholeOrNot (store_text Tagged (whole_store name from to (shown rows.now)))) (D.view disk.old)) by (D.view disk.old) (D.view disk.new) }
    ensures count { IfOk result (λ n. n ≡ length (shown rows.now)) }
    ensures touches { IsTrue D.told → Touches name (D.view disk.old) (D.view disk.new) }
    ensures memory { IsErrOf result FileRefusal.Memory → disk.new ≡ disk.old }
    ensures cause { HasCause (D.faults disk.old) (D.faults disk.new) (IsErrOf result FileRefusal.DiskFault) }
{
    let shown = mask(alloc, rows, rows.len() as u64)?;
    write_whole(alloc, disk, name, from, to, shown.as_slice())
}

/// Writes these cells, which are in order.
fn write_whole<D: Disk>(
    alloc: Global,
    disk: &mut D,
    name: Name,
    from: u64,
    to: u64,
    rows: &[Row],
) -> Result<u64, FileRefusal>
    requires absent { IsTrue D.told → IsAbsent (D.view disk.old).files name × (¬ (D.view disk.old).gone name) }
    requires kind { name.kind ≡ kinds.Store }
    requires store { IsStore (whole_store name from to rows.now) }

    ensures stored { IsTrue D.told → OnOk result (IsDurableFile (D.view disk.new) name (store_text Tagged (whole_store name from to rows.now))) }
    ensures any_moment { IsTrue D.told → (by : ℕ) × Throughout (OnlyAt name
        (IsWholeOrNot (store_text Tagged (whole_store name from to rows.now))) (D.view disk.old)) by (D.view disk.old) (D.view disk.new) }
    ensures count { IfOk result (λ n. n ≡ length rows.now) }
    ensures touches { IsTrue D.told → Touches name (D.view disk.old) (D.view disk.new) }
    ensures memory { IsErrOf result FileRefusal.Memory → disk.new ≡ disk.old }
    ensures cause { HasCause (D.faults disk.old) (D.faults disk.new) (IsErrOf result FileRefusal.DiskFault) }
{
    let count = rows.len() as u64;
    let store = StoreFile::begin(alloc, disk, name, 1, &[], from, to, count)?;
    write_rows(disk, store, rows)?;
    Ok(count)
}
