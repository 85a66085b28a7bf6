//! A region's entries, or the cells of one family of them, go into a store file.

ghost use Rattle.std.specs.Prelude.{◌≡◌, ◌≤◌, ◌<◌, ◌+◌, ◌↔◌, ◌⊎◌, ℕ, List, [], length, get_or, slice_set, Some, None, Ok, Err, IsTrue, IfOk, IfSome, OnOk, OnErr, IsErrOf};
ghost use Rattle.std.specs.Option.{option_copied};
ghost use Rattle.seq_accounting.specs.Accounts.{flushed_at};
ghost use Rattle.recovery_laws.specs.Kept.{flushed_to};
ghost use Rattle.chronicle_model.specs.Growth.{IsGoingOn, LogsStay, Prolongs};
ghost use Rattle.log_file.specs.Open.{OpenLog};
ghost use Rattle.flush_snapshot.specs.Cut.{AreOf, IsWithin};
ghost use Rattle.log_ledger.specs.History.{History, flushed_in, family_in};
ghost use Rattle.log_ledger.specs.Numbers.{IsServed, IsLeft, AreInOrder, AreStoresFew};
ghost use Rattle.log_ledger.specs.Counted.{PutsCut, HasUnflushed};
ghost use Rattle.log_device.specs.Bears.{Bears};
ghost use Rattle.log_device.specs.Keeps.{Between};
ghost use Rattle.log_device.specs.Flushed.{HasStore, NoneKept};
ghost use Rattle.log_device.specs.Whole.{IsBroken, IsAtRest, Breaks, log_of, numbers_of, HasHistory, EachImage, CausesFault, OnlyCommits, disk_of, view_of, files_of};
ghost use Rattle.log_device.specs.Calls.{Flushes, FlushesFrom, FlushesNumbers};

use crate::device::Device;
use crate::error::DeviceFlush;
use disk_images::{Disk, Name, NameKind};
use flush_snapshot::write_cut;
use kv_cell::NumberedCells;
use log_file::FileRefusal;
use seq_accounting::FlushRoom;
use std::alloc::Global;

impl<D: Disk> Device<D> {
    /// Commits all that is staged, and writes the region's cells that aren't flushed, those of this family (1 to 127 bytes) or
    /// of all where none is given, as one store file. It gives the region's last number, up to which the family, or all of the
    /// region, is flushed then. `Nothing` comes exactly where no such cell is kept after the commit, with the same number;
    /// `Memory` after the commit and before any other disk call.
    pub fn flush(
        &mut self,
        alloc: Global,
        region: u32,
        family: Option<&[u8]>,
    ) -> Result<u64, DeviceFlush>
        requires served { IsServed (numbers_of self.old) region }
        requires family { IfSome family (λ f. (1 ≤ length f.now) × (length f.now ≤ 127)) }
        requires whole { IsTrue D.told → (IsBroken self.old → ⊥) → ∥ ((h : History) × HasHistory D.Disk self.old h) ∥₁ }

        // What the disk and each crash image hold, and what the numbers and the file say, on any disk.
        ensures flushes { IsTrue D.told → (h : History) → HasHistory D.Disk self.old h
            → Flushes D.Disk h region (option_copied family.entry) result self.old self.new }
        ensures numbers { FlushesNumbers region (option_copied family.entry) result self.old self.new }

        // The logs' chronicle before the call begins the one after it, whatever it answers.
        ensures chronicle { IsTrue D.told → (h : History) → HasHistory D.Disk self.old h
            → Prolongs (files_of D.Disk self.old) (files_of D.Disk self.new) }

        // Unless the device is broken now, the highest log isn't ended: the chronicle goes on in it.
        ensures goes_on { IsTrue D.told → (h : History) → HasHistory D.Disk self.old h → (IsBroken self.new → ⊥)
            → IsGoingOn (files_of D.Disk self.new) }

        // What stays, and when it fails.
        ensures stays { IsBroken self.old → self.new ≡ self.old }
        ensures memory { IsErrOf result DeviceFlush.Memory → OnlyCommits D.Disk self.old self.new }
        ensures broken { IsErrOf result DeviceFlush.WriteFault ↔ IsBroken self.new }
        ensures cause { CausesFault D.Disk self.old self.new ((IsBroken self.old → ⊥)
            × IsErrOf result DeviceFlush.WriteFault) }
    {
        self.sync()?;
        self.flush_committed(alloc, region, family)
    }

    /// Flushes a region, or one family of it, where nothing is staged.
    fn flush_committed(
        &mut self,
        alloc: Global,
        region: u32,
        family: Option<&[u8]>,
    ) -> Result<u64, DeviceFlush>
        requires served { IsServed (numbers_of self.old) region }
        requires family { IfSome family (λ f. (1 ≤ length f.now) × (length f.now ≤ 127)) }
        requires rest { IsAtRest D.Disk self.old }

        ensures flushes { IsTrue D.told → (h : History) → HasHistory D.Disk self.old h → h.kept.staged ≡ []
            → FlushesFrom D.Disk [] h region (option_copied family.entry) result self.old self.new }
        ensures numbers { FlushesNumbers region (option_copied family.entry) result self.old self.new }
        ensures logs { IsTrue D.told → LogsStay (files_of D.Disk self.old) (files_of D.Disk self.new) }
        ensures memory { IsErrOf result DeviceFlush.Memory → disk_of self.new ≡ disk_of self.old }
        ensures breaks { Breaks D.Disk (IsErrOf result DeviceFlush.WriteFault) self.old self.new }
    {
        let ledger = &*self.ledger;
        if !ledger.has_unflushed(region, family) {
            return Err(DeviceFlush::Nothing {
                flushed: self.found_nothing(region, family),
            });
        }
        let own = name_of(family);
        let cells = ledger.cells(alloc, region, own)?;
        let Ok(room) = FlushRoom::new(alloc, own) else {
            return Err(DeviceFlush::Memory);
        };
        self.write_store(alloc, region, family, cells, room)
    }

    /// A region, or one family of it, has nothing to flush: what is told of a region that is asked for as a whole is its last
    /// number then, which it gives.
    fn found_nothing(&mut self, region: u32, family: Option<&[u8]>) -> u64
        requires served { IsServed (numbers_of self.old) region }
        requires rest { IsAtRest D.Disk self.old }
        requires order { AreInOrder (numbers_of self.old) }
        requires none { option_copied family ≡ None → get_or (numbers_of self.old).chains region [] ≡ [] }

        ensures flushes { IsTrue D.told → (h : History) → HasHistory D.Disk self.old h → h.kept.staged ≡ []
            → NoneKept h.kept region (option_copied family.entry)
            → FlushesFrom D.Disk [] h region (option_copied family.entry) (Err (DeviceFlush.Nothing result)) self.old self.new }
        ensures numbers { FlushesNumbers region (option_copied family.entry) (Err (DeviceFlush.Nothing result)) self.old self.new }
        ensures disk { disk_of self.new ≡ disk_of self.old }
        ensures log { log_of self.new ≡ log_of self.old }
    {
        let flushed = self.ledger.synced(region);
        if family.is_none() {
            self.ledger.keep(region);
        }
        flushed
    }

    /// Writes these cells, which are what the region has of the family above its flushed number, as its next store file.
    fn write_store(
        &mut self,
        alloc: Global,
        region: u32,
        family: Option<&[u8]>,
        cells: NumberedCells,
        room: FlushRoom,
    ) -> Result<u64, DeviceFlush>
        requires served { IsServed (numbers_of self.old) region }
        requires family { IfSome family (λ f. (1 ≤ length f.now) × (length f.now ≤ 127)) }
        requires order { AreInOrder (numbers_of self.old) }
        requires left { IsLeft (numbers_of self.old) region (family_in (option_copied family)) }
        requires above { option_copied family ≡ None → get_or (numbers_of self.old).stored region 0 < get_or (numbers_of self.old).drawn region 0 }
        requires low { flushed_at (numbers_of self.old).accounts region (family_in (option_copied family)) < get_or (numbers_of self.old).drawn region 0 }
        requires within { IsWithin (flushed_at (numbers_of self.old).accounts region (family_in (option_copied family)) + 1)
            (get_or (numbers_of self.old).drawn region 0) cells }
        requires of { AreOf (family_in (option_copied family)) cells }
        requires room { room ≡ family_in (option_copied family) }
        requires rest { IsAtRest D.Disk self.old }

        ensures flushes { IsTrue D.told → (h : History) → HasHistory D.Disk self.old h → h.kept.staged ≡ []
            → HasUnflushed h.kept region (option_copied family.entry)
            → PutsCut h.kept region (family_in (option_copied family.entry)) (get_or (numbers_of self.old).drawn region 0) cells
            → FlushesFrom D.Disk [] h region (option_copied family.entry) result self.old self.new }
        ensures numbers { FlushesNumbers region (option_copied family.entry) result self.old self.new }
        ensures logs { IsTrue D.told → LogsStay (files_of D.Disk self.old) (files_of D.Disk self.new) }
        ensures memory { IsErrOf result DeviceFlush.Memory → disk_of self.new ≡ disk_of self.old }
        ensures breaks { Breaks D.Disk (IsErrOf result DeviceFlush.WriteFault) self.old self.new }
    {
        let ledger = &*self.ledger;
        let own = name_of(family);
        let from = ledger.flushed(region, own) + 1;
        let to = ledger.drawn(region);
        let name = Name {
            kind: NameKind::Store,
            region,
            number: ledger.next_store(region),
        };
        match write_cut(alloc, &mut self.disk, name, own, from, to, cells) {
            Ok(_) => {
                self.ledger.flush(region, room);
                Ok(to)
            }
            Err(FileRefusal::Memory) => Err(DeviceFlush::Memory),
            Err(FileRefusal::DiskFault) => {
                self.log = None;
                Err(DeviceFlush::WriteFault)
            }
        }
    }
}

/// The family's name, empty where none is given.
fn name_of(family: Option<&[u8]>) -> &[u8]
    ensures { result.now ≡ family_in (option_copied family.entry) }
{
    match family {
        Some(family) => family,
        None => &[],
    }
}
