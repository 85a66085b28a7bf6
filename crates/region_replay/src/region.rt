//! The replay of one region whose files were read.

ghost use Rattle.std.specs.Prelude.{◌≡◌, ◌≢◌, ◌<◌, Contains, IsTrue, IfOk, OnOk, IsErrOf};
ghost use Rattle.log_model.specs.declared.name.Name.{Name as TheName};
ghost use Rattle.log_model.specs.declared.name.NameKind.TheVariants as kinds;
ghost use Rattle.log_model.specs.Files.{Files, IsAbsent, content};
ghost use Rattle.disk_images.specs.Calls.{HasCause};
ghost use Rattle.recovery_laws.specs.Alike.{AllAlike};
ghost use Rattle.wal_split.specs.Held.{IsHeld};
ghost use Rattle.wal_split.specs.Moments.{During};
ghost use Rattle.region_replay.specs.Names.{AreThere, store_name};
ghost use Rattle.region_replay.specs.Ready.{IsOf};
ghost use Rattle.region_replay.specs.Stored.{StoresReplayed};
ghost use Rattle.region_replay.specs.Regions.{IsInOrder, IsFound, IsTop};

use crate::found::{RegionFiles, Replayed};
use crate::gathering::{base_of, base_with, entry_cells, last_number};
use crate::removing::remove_all;
use crate::replaying::replay_found;
use disk_images::{Disk, Name, NameKind};
use log_file::FileRefusal;
use mem_segments::Segment;
use std::alloc::Global;

/// Writes the cells of a region that aren't flushed as its next store, which has no family and goes from one above what is
/// flushed of the whole region up to the last sequence id seen, and removes its edits files. The store is written even
/// without a cell, and none is written where the whole region is flushed up to the last. Out of memory may come before
/// anything is written, or when the files are as they are after Ok: then too each image recovers as before.
pub(crate) fn replay_region<D: Disk>(
    alloc: Global,
    disk: &mut D,
    found: RegionFiles,
) -> Result<Replayed, FileRefusal>
    requires order { IsInOrder (IsTrue D.told) found }
    requires absent { IsTrue D.told → IsAbsent (D.view disk.old).files (store_name found.region found.next_store)
        × (¬ (D.view disk.old).gone (store_name found.region found.next_store)) }
    requires there { IsTrue D.told → AreThere (D.view disk.old).files found.edits.items }

    ensures any_moment { IsTrue D.told → (base : Files) → IsHeld base (D.view disk.old)
        → IsFound (D.view disk.old).files found → During (AllAlike base) (D.view disk.old) (D.view disk.new) }
    ensures held { IsTrue D.told → (base : Files) → IsHeld base (D.view disk.old)
        → IsFound (D.view disk.old).files found → OnOk result (IsHeld base (D.view disk.new)) }
    ensures replayed { IsTrue D.told → (base : Files) → IsHeld base (D.view disk.old)
        → IsFound (D.view disk.old).files found
        → IfOk result (λ x. IsOf (D.view disk.old).files (D.view disk.new).files found.region x) }
    ensures stored { IsTrue D.told → IsFound (D.view disk.old).files found
        → IfOk result (λ x. StoresReplayed (D.view disk.old).files (D.view disk.new).files found.region x) }
    ensures no_edits { IsTrue D.told → OnOk result ((m : TheName) → Contains found.edits.items m
        → IsAbsent (D.view disk.new).files m) }
    ensures others { IsTrue D.told → OnOk result ((m : TheName) → m ≢ store_name found.region found.next_store
        → ((n : TheName) → Contains found.edits.items n → m ≢ n)
        → content (D.view disk.new).files m ≡ content (D.view disk.old).files m) }
    ensures cause { HasCause (D.faults disk.old) (D.faults disk.new) (IsErrOf result FileRefusal.DiskFault) }
{
    let last = last_number(&found.unflushed, found.flushed.last);
    if found.flushed.whole == last {
        return drop_edits(alloc, disk, found);
    }
    store_region(alloc, disk, found, last)
}

/// The same where the whole region is flushed up to its last sequence id: the edits files go.
fn drop_edits<D: Disk>(
    alloc: Global,
    disk: &mut D,
    found: RegionFiles,
) -> Result<Replayed, FileRefusal>
    requires order { IsInOrder (IsTrue D.told) found }
    requires over { IsTop found.unflushed.items found.flushed.last found.flushed.whole }
    requires there { IsTrue D.told → AreThere (D.view disk.old).files found.edits.items }

    ensures any_moment { IsTrue D.told → (base : Files) → IsHeld base (D.view disk.old)
        → IsFound (D.view disk.old).files found → During (AllAlike base) (D.view disk.old) (D.view disk.new) }
    ensures held { IsTrue D.told → (base : Files) → IsHeld base (D.view disk.old)
        → IsFound (D.view disk.old).files found → OnOk result (IsHeld base (D.view disk.new)) }
    ensures replayed { IsTrue D.told → (base : Files) → IsHeld base (D.view disk.old)
        → IsFound (D.view disk.old).files found
        → IfOk result (λ x. IsOf (D.view disk.old).files (D.view disk.new).files found.region x) }
    ensures stored { IsTrue D.told → IsFound (D.view disk.old).files found
        → IfOk result (λ x. StoresReplayed (D.view disk.old).files (D.view disk.new).files found.region x) }
    ensures no_edits { IsTrue D.told → OnOk result ((m : TheName) → Contains found.edits.items m
        → IsAbsent (D.view disk.new).files m) }
    ensures others { IsTrue D.told → OnOk result ((m : TheName) → m ≢ store_name found.region found.next_store
        → ((n : TheName) → Contains found.edits.items n → m ≢ n)
        → content (D.view disk.new).files m ≡ content (D.view disk.old).files m) }
    ensures cause { HasCause (D.faults disk.old) (D.faults disk.new) (IsErrOf result FileRefusal.DiskFault) }
{
    let last = found.flushed.whole;
    let base = base_of(alloc, found.stored, last)?;
    let replayed = Replayed {
        base,
        flushed: last,
        next_store: found.next_store,
    };
    match remove_all(disk, &found.edits) {
        Ok(()) => Ok(replayed),
        Err(_) => Err(FileRefusal::DiskFault),
    }
}

/// The same where the whole region is flushed up to a lower sequence id than its last: a store is written first.
fn store_region<D: Disk>(
    alloc: Global,
    disk: &mut D,
    found: RegionFiles,
    last: u64,
) -> Result<Replayed, FileRefusal>
    requires order { IsInOrder (IsTrue D.told) found }
    requires last { IsTop found.unflushed.items found.flushed.last last }
    requires more { found.flushed.whole < last }
    requires absent { IsTrue D.told → IsAbsent (D.view disk.old).files (store_name found.region found.next_store)
        × (¬ (D.view disk.old).gone (store_name found.region found.next_store)) }
    requires there { IsTrue D.told → AreThere (D.view disk.old).files found.edits.items }

    ensures any_moment { IsTrue D.told → (base : Files) → IsHeld base (D.view disk.old)
        → IsFound (D.view disk.old).files found → During (AllAlike base) (D.view disk.old) (D.view disk.new) }
    ensures held { IsTrue D.told → (base : Files) → IsHeld base (D.view disk.old)
        → IsFound (D.view disk.old).files found → OnOk result (IsHeld base (D.view disk.new)) }
    ensures replayed { IsTrue D.told → (base : Files) → IsHeld base (D.view disk.old)
        → IsFound (D.view disk.old).files found
        → IfOk result (λ x. IsOf (D.view disk.old).files (D.view disk.new).files found.region x) }
    ensures stored { IsTrue D.told → IsFound (D.view disk.old).files found
        → IfOk result (λ x. StoresReplayed (D.view disk.old).files (D.view disk.new).files found.region x) }
    ensures no_edits { IsTrue D.told → OnOk result ((m : TheName) → Contains found.edits.items m
        → IsAbsent (D.view disk.new).files m) }
    ensures others { IsTrue D.told → OnOk result ((m : TheName) → m ≢ store_name found.region found.next_store
        → ((n : TheName) → Contains found.edits.items n → m ≢ n)
        → content (D.view disk.new).files m ≡ content (D.view disk.old).files m) }
    ensures cause { HasCause (D.faults disk.old) (D.faults disk.new) (IsErrOf result FileRefusal.DiskFault) }
{
    let from = found.flushed.whole + 1;
    let cut = entry_cells(alloc, found.unflushed, &found.flushed)?;
    let stored = Segment::of_cells(alloc, found.stored)?;
    let name = Name {
        kind: NameKind::Store,
        region: found.region,
        number: found.next_store,
    };
    let unflushed = replay_found(alloc, disk, name, from, last, cut, &found.edits)?;
    let base = base_with(alloc, stored, unflushed, last)?;
    Ok(Replayed {
        base,
        flushed: last,
        next_store: found.next_store + 1,
    })
}
