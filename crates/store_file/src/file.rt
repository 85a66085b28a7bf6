//! A store file that is written.

ghost use Rattle.std.specs.Prelude.{◌≡◌, ◌≤◌, ◌<◌, ◌+◌, ◌^◌, ℕ, [], List, length, IsTrue, IfOk, OnOk, IsErr, IsErrOf, ◌↔◌};
ghost use Rattle.cell_model.specs.Order.{NumberedCell};
ghost use Rattle.log_model.specs.declared.name.NameKind.TheVariants as kinds;
ghost use Rattle.log_model.specs.Files.{IsAbsent};
ghost use Rattle.log_model.specs.StoreText.{IsStore};
ghost use Rattle.disk_images.specs.Crash.{Throughout, OnlyAt};
ghost use Rattle.disk_images.specs.OneFile.{Touches};
ghost use Rattle.disk_images.specs.Calls.{HasCause};
ghost use Rattle.recovery_laws.specs.Kept.{IsNotThere};
ghost use Rattle.store_file.specs.Open.{IsNew, IsAlike, IsFilling, store_of};
ghost use Rattle.store_file.specs.Calls.{Begins, PutsIn, Commits};

use crate::buffer::Buffer;
use crate::commit::commit_filled;
use disk_images::{Disk, Name, create_durably, write_behind};
use file_base::{DiskFault, FileRefusal};
use kv_cell::{Cell, Octets};
use log_model::CLOSED_GATE;
use std::alloc::Global;
use std::marker::Model;

/// A store file that is written: its gate stands closed, and cells go after it.
#[derive(Debug, Drop)]
pub struct StoreFile {
    name: Name,
    scope: u8,
    family: Octets,
    from: u64,
    to: u64,
    count: u64,
    filled: u64,
    at: u64,
    buffer: Buffer,
}

impl Model for StoreFile {
    ghost use Rattle.store_file.specs.Open.{OpenStore, IsBounded};

    ghost Value = { OpenStore };

    ghost view = { λ f. record { name = f.name; scope = f.scope; family = f.family; from = f.from; to = f.to; count = f.count; filled = f.filled; at = f.at; bytes = f.buffer } };

    ghost invariant = { λ f. IsBounded
        (record { name = f.name; scope = f.scope; family = f.family; from = f.from; to = f.to; count = f.count; filled = f.filled; at = f.at; bytes = f.buffer }) };
}

impl StoreFile {
    /// Begins the file of a store that covers the sequence ids from `from` to `to`, with `count` cells, all of the family
    /// (at most 127 bytes) or of any where it is empty. The scope is 0, or it is 1 and the family is empty: then the store
    /// stands in the place of all with lower numbers. The name is neither there nor gone. Memory is taken before the first
    /// disk call, of which there are three.
    pub fn begin<D: Disk>(
        alloc: Global,
        disk: &mut D,
        name: Name,
        scope: u8,
        family: &[u8],
        from: u64,
        to: u64,
        count: u64,
    ) -> Result<StoreFile, FileRefusal>
        requires absent { IsTrue D.told → IsAbsent (D.view disk.old).files name × (¬ (D.view disk.old).gone name) }
        requires kind { name.kind ≡ kinds.Store }
        requires scope { scope ≤ 1 }
        requires whole { scope ≡ 1 → family.now ≡ [] }
        requires family { length family.now ≤ 127 }
        requires range { (1 ≤ from) × (from ≤ to) × (to < 2 ^ 48) }

        // What the disk and every crash image hold.
        ensures begins { IsTrue D.told → Begins name result (D.view disk.old) (D.view disk.new) }

        // What the writer holds.
        ensures shape { IfOk result (IsNew name scope family.now from to count) }

        // When it fails.
        ensures memory { IsErrOf result FileRefusal.Memory → disk.new ≡ disk.old }
        ensures cause { HasCause (D.faults disk.old) (D.faults disk.new) (IsErrOf result FileRefusal.DiskFault) }
    {
        let buffer = Buffer::new(alloc)?;
        let family = Octets::copy_of(alloc, family)?;
        let store = StoreFile::begin_with(disk, name, scope, family, from, to, count, buffer)?;
        Ok(store)
    }

    /// Begins the file with an empty buffer. It takes no memory.
    fn begin_with<D: Disk>(
        disk: &mut D,
        name: Name,
        scope: u8,
        family: Octets,
        from: u64,
        to: u64,
        count: u64,
        buffer: Buffer,
    ) -> Result<StoreFile, DiskFault>
        requires absent { IsTrue D.told → IsAbsent (D.view disk.old).files name × (¬ (D.view disk.old).gone name) }
        requires kind { name.kind ≡ kinds.Store }
        requires short { length family ≤ 127 }
        requires empty { buffer ≡ [] }

        ensures begins { IsTrue D.told → Begins name result (D.view disk.old) (D.view disk.new) }
        ensures shape { IfOk result (IsNew name scope family from to count) }
        ensures cause { HasCause (D.faults disk.old) (D.faults disk.new) (IsErr result) }
    {
        // Until the sync a crash leaves no file, or one of at most this byte, a closed gate: neither is there.
        create_durably(disk, name, &[CLOSED_GATE])?;
        let mut buffer = buffer;
        buffer.add_fields(name.region, scope, family.as_slice(), from, to, count);
        Ok(StoreFile {
            name,
            scope,
            family,
            from,
            to,
            count,
            filled: 0,
            at: 1,
            buffer,
        })
    }

    /// Puts a cell in, after those before. It takes no memory. It makes one disk call where the cell doesn't fit the
    /// buffer any more, else none. After a fault the file isn't to be used again.
    pub fn fill<D: Disk>(&mut self, disk: &mut D, number: u64, cell: &Cell) -> Result<(), DiskFault>
        requires { IsTrue D.told → ∥ ((cells : List NumberedCell) × IsFilling self.old (D.view disk.old) cells) ∥₁ }

        // What the disk and every crash image hold.
        ensures puts_in { IsTrue D.told → (cells : List NumberedCell) → IsFilling self.old (D.view disk.old) cells
            → PutsIn cells (number, cell.now) result self.old self.new (D.view disk.old) (D.view disk.new) }
        ensures no_other_file { IsTrue D.told → Touches self.old.name (D.view disk.old) (D.view disk.new) }

        // What the writer holds.
        ensures counted { OnOk result (self.new.filled ≡ self.old.filled + 1) }
        ensures shape { IsAlike self.old self.new }

        // When it fails.
        ensures cause { HasCause (D.faults disk.old) (D.faults disk.new) (IsErr result) }
    {
        self.make_room(disk, 8 + cell.tagged_len())?;
        self.buffer.add_pair(number, cell);
        self.filled += 1;
        Ok(())
    }

    /// Makes room in the buffer for so many bytes.
    fn make_room<D: Disk>(&mut self, disk: &mut D, len: usize) -> Result<(), DiskFault>
        requires filling { IsTrue D.told → ∥ ((cells : List NumberedCell) × IsFilling self.old (D.view disk.old) cells) ∥₁ }
        requires within { len ≤ 262144 }

        ensures filled { IsTrue D.told → (cells : List NumberedCell) → IsFilling self.old (D.view disk.old) cells
            → OnOk result (IsFilling self.new (D.view disk.new) cells) }
        ensures room { OnOk result (length self.new.bytes + len ≤ 262144) }
        ensures any_moment { IsTrue D.told → (cells : List NumberedCell) → IsFilling self.old (D.view disk.old) cells
            → Throughout (OnlyAt self.old.name IsNotThere (D.view disk.old)) 1 (D.view disk.old) (D.view disk.new) }
        ensures shape { IsAlike self.old self.new }
        ensures same_count { self.new.filled ≡ self.old.filled }
        ensures touches { IsTrue D.told → Touches self.old.name (D.view disk.old) (D.view disk.new) }
        ensures cause { HasCause (D.faults disk.old) (D.faults disk.new) (IsErr result) }
    {
        if self.buffer.has_room(len) {
            return Ok(());
        }
        self.write_out(disk)?;
        Ok(())
    }

    /// Writes what waits, and empties the buffer.
    fn write_out<D: Disk>(&mut self, disk: &mut D) -> Result<(), DiskFault>
        requires { IsTrue D.told → ∥ ((cells : List NumberedCell) × IsFilling self.old (D.view disk.old) cells) ∥₁ }

        ensures filled { IsTrue D.told → (cells : List NumberedCell) → IsFilling self.old (D.view disk.old) cells
            → OnOk result (IsFilling self.new (D.view disk.new) cells) }
        ensures empty { OnOk result (self.new.bytes ≡ []) }
        ensures any_moment { IsTrue D.told → (cells : List NumberedCell) → IsFilling self.old (D.view disk.old) cells
            → Throughout (OnlyAt self.old.name IsNotThere (D.view disk.old)) 1 (D.view disk.old) (D.view disk.new) }
        ensures shape { IsAlike self.old self.new }
        ensures same_count { self.new.filled ≡ self.old.filled }
        ensures touches { IsTrue D.told → Touches self.old.name (D.view disk.old) (D.view disk.new) }
        ensures cause { HasCause (D.faults disk.old) (D.faults disk.new) (IsErr result) }
    {
        let bytes = self.buffer.as_slice();
        if bytes.is_empty() {
            return Ok(());
        }
        let len = bytes.len() as u64;
        // A crash leaves the closed gate, which is durable, whatever it leaves of these bytes.
        write_behind(disk, self.name, self.at, bytes)?;
        self.at += len;
        self.buffer.clear();
        Ok(())
    }

    /// Whether as many cells were put in as the store is to have.
    pub fn is_full(&self) -> bool
        ensures { IsTrue result ↔ (self.now.filled ≡ self.now.count) }
    {
        self.filled == self.count
    }

    /// Makes the store be there, whole. As many cells were put in as it is to have, in order and in range. It takes no
    /// memory, and makes at most four disk calls.
    pub fn commit<D: Disk>(self, disk: &mut D) -> Result<(), DiskFault>
        requires full { self.filled ≡ self.count }
        requires store { IsTrue D.told → ∥ ((cells : List NumberedCell) × IsFilling self (D.view disk.old) cells × IsStore (store_of self cells)) ∥₁ }

        // What the disk and every crash image hold.
        ensures commits { IsTrue D.told → (cells : List NumberedCell) → IsFilling self (D.view disk.old) cells
            → Commits cells result self (D.view disk.old) (D.view disk.new) }
        ensures no_other_file { IsTrue D.told → Touches self.name (D.view disk.old) (D.view disk.new) }

        // When it fails.
        ensures cause { HasCause (D.faults disk.old) (D.faults disk.new) (IsErr result) }
    {
        let mut store = self;
        store.write_out(disk)?;
        commit_filled(disk, store.name)?;
        Ok(())
    }
}
