//! Writing a cut of cells as a store file.

ghost use Rattle.std.specs.Prelude.{◌≡◌, ◌≤◌, ◌<◌, ◌+◌, ◌^◌, ℕ, length, IsTrue, IfOk, OnOk, IsErrOf};
ghost use Rattle.std.specs.FinMap.{empty};
ghost use Rattle.cell_model.specs.Order.{cells_of};
ghost use Rattle.cell_model.specs.Merge.{put_numbered};
ghost use Rattle.log_model.specs.declared.name.NameKind.TheVariants as kinds;
ghost use Rattle.log_model.specs.Files.{IsAbsent};
ghost use Rattle.cell_model.specs.declared.form.Form.TheVariants.{Tagged};
ghost use Rattle.log_model.specs.StoreText.{IsStore, store_text};
ghost use Rattle.disk_images.specs.Crash.{Throughout, OnlyAt};
ghost use Rattle.disk_images.specs.OneFile.{Touches, IsDurableFile};
ghost use Rattle.disk_images.specs.Calls.{HasCause};
ghost use Rattle.store_file.specs.Whole.{IsWholeOrNot};
ghost use Rattle.flush_snapshot.specs.Cut.{cut_store, segment_store, ordered_cells, IsWithin, AreOf};

use crate::filling::write_rows;
use disk_images::{Disk, Name};
use kv_cell::NumberedCells;
use mem_segments::Segment;
use std::alloc::Global;
use store_file::{FileRefusal, StoreFile};

/// Writes the cut's cells, whose sequence ids lie from `from` to `to`, in order as one store file whose name is neither
/// there nor gone, and gives their number. All are of the family (at most 127 bytes), or of any where it is empty. Of two
/// cells with one key and sequence id the later one alone is stored. Memory is taken before the first disk call.
pub fn write_cut<D: Disk>(
    alloc: Global,
    disk: &mut D,
    name: Name,
    family: &[u8],
    from: u64,
    to: u64,
    cut: NumberedCells,
) -> Result<u64, FileRefusal>
    requires absent { IsTrue D.told → IsAbsent (D.view disk.old).files name × (¬ (D.view disk.old).gone name) }
    requires kind { name.kind ≡ kinds.Store }
    requires family { length family.now ≤ 127 }
    requires range { (1 ≤ from) × (from ≤ to) × (to < 2 ^ 48) }
    requires within { IsWithin from to cut }
    // In a store of one family each cell is of it.
    requires of { AreOf family.now cut }

    ensures stored { IsTrue D.told → OnOk result (IsDurableFile (D.view disk.new) name (store_text Tagged (cut_store name family.now from to cut))) }
    ensures store { ¬ IsErrOf result FileRefusal.Memory → IsStore (cut_store name family.now from to cut) }
    ensures count { IfOk result (λ n. n ≡ length (ordered_cells cut)) }

    // At each moment each image of the file isn't there, or is the whole store.
    ensures any_moment { IsTrue D.told
        → Throughout (OnlyAt name (IsWholeOrNot (store_text Tagged (cut_store name family.now from to cut))) (D.view disk.old))
        (7 + length (ordered_cells cut)) (D.view disk.old) (D.view disk.new) }
    ensures touches { IsTrue D.told → Touches name (D.view disk.old) (D.view disk.new) }
    ensures memory { IsErrOf result FileRefusal.Memory → disk.new ≡ disk.old }
    ensures cause { HasCause (D.faults disk.old) (D.faults disk.new) (IsErrOf result FileRefusal.DiskFault) }
{
    let segment = store_cut(alloc, disk, name, family, from, to, cut)?;
    Ok(segment.rows().len() as u64)
}

/// The same, and it hands the cells back in order, so that who goes on with them needn't order them again.
pub fn store_cut<D: Disk>(
    alloc: Global,
    disk: &mut D,
    name: Name,
    family: &[u8],
    from: u64,
    to: u64,
    cut: NumberedCells,
) -> Result<Segment, FileRefusal>
    requires absent { IsTrue D.told → IsAbsent (D.view disk.old).files name × (¬ (D.view disk.old).gone name) }
    requires kind { name.kind ≡ kinds.Store }
    requires family { length family.now ≤ 127 }
    requires range { (1 ≤ from) × (from ≤ to) × (to < 2 ^ 48) }
    requires within { IsWithin from to cut }
    // In a store of one family each cell is of it.
    requires of { AreOf family.now cut }

    ensures stored { IsTrue D.told → OnOk result (IsDurableFile (D.view disk.new) name (store_text Tagged (cut_store name family.now from to cut))) }
    ensures store { ¬ IsErrOf result FileRefusal.Memory → IsStore (cut_store name family.now from to cut) }
    ensures cells { IfOk result (λ segment. segment ≡ put_numbered empty cut) }

    // At each moment each image of the file isn't there, or is the whole store.
    ensures any_moment { IsTrue D.told
        → Throughout (OnlyAt name (IsWholeOrNot (store_text Tagged (cut_store name family.now from to cut))) (D.view disk.old)) (7 + length (ordered_cells cut))
        (D.view disk.old) (D.view disk.new) }
    ensures touches { IsTrue D.told → Touches name (D.view disk.old) (D.view disk.new) }
    ensures memory { IsErrOf result FileRefusal.Memory → disk.new ≡ disk.old }
    ensures cause { HasCause (D.faults disk.old) (D.faults disk.new) (IsErrOf result FileRefusal.DiskFault) }
{
    let segment = Segment::of_cells(alloc, cut)?;
    write_segment(alloc, disk, name, family, from, to, &segment)?;
    Ok(segment)
}

/// Writes the cells of a segment, whose sequence ids lie from `from` to `to`, as one store file whose name is neither there
/// nor gone. All are of the family (at most 127 bytes), or of any where it is empty. They are in order already. Memory is
/// taken before the first disk call.
pub fn write_segment<D: Disk>(
    alloc: Global,
    disk: &mut D,
    name: Name,
    family: &[u8],
    from: u64,
    to: u64,
    segment: &Segment,
) -> Result<(), FileRefusal>
    requires absent { IsTrue D.told → IsAbsent (D.view disk.old).files name × (¬ (D.view disk.old).gone name) }
    requires kind { name.kind ≡ kinds.Store }
    requires family { length family.now ≤ 127 }
    requires range { (1 ≤ from) × (from ≤ to) × (to < 2 ^ 48) }
    requires store { IsStore (segment_store name family.now from to segment.now) }

    ensures stored { IsTrue D.told
        → OnOk result (IsDurableFile (D.view disk.new) name (store_text Tagged (segment_store name family.now from to segment.now))) }

    // At each moment each image of the file isn't there, or is the whole store.
    ensures any_moment { IsTrue D.told
        → Throughout (OnlyAt name (IsWholeOrNot (store_text Tagged (segment_store name family.now from to segment.now))) (D.view disk.old))
        (7 + length (cells_of segment.now)) (D.view disk.old) (D.view disk.new) }
    ensures touches { IsTrue D.told → Touches name (D.view disk.old) (D.view disk.new) }
    ensures memory { IsErrOf result FileRefusal.Memory → disk.new ≡ disk.old }
    ensures cause { HasCause (D.faults disk.old) (D.faults disk.new) (IsErrOf result FileRefusal.DiskFault) }
{
    let rows = segment.rows();
    let count = rows.len() as u64;
    let store = StoreFile::begin(alloc, disk, name, 0, family, from, to, count)?;
    write_rows(disk, store, rows)?;
    Ok(())
}
