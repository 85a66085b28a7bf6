// A disk's calls, its files as they were before them, and as they are now.
ghost use Rattle.std.specs.Prelude.{◌≡◌, ◌≤◌, ◌<◌, ◌+◌, ◌-◌, ◌^◌, ◌++◌, ℕ, List, [], ◌∷◌, length, min, take, drop, true, false, OnOk, OnErr, IfOk, Option};
ghost use Rattle.disk_fakes.specs.Table.{files_in};
ghost use Rattle.disk_fakes.specs.History.{after, quiet, MeetAll, AreNamed};
ghost use Rattle.disk_fakes.specs.Conditions.{meet_all_prop};
ghost use Rattle.disk_fakes.specs.Order.{files_prop};

use crate::crash::played;
use crate::op::{Op, note};
use crate::piece::carried;
use crate::table::FileTable;
use disk_images::{Failed, Name, NameList};
use std::alloc::{AllocError, Global};
use std::cmp::min;

#[derive(Drop)]
pub struct History {
    pub alloc: Global,
    pub first: FileTable,
    pub table: FileTable,
    pub ops: Vec<Op>,
    ghost tied: { files_in table ≡ (after (quiet (files_in first)) ops.items).files } by { files_prop (files_in table) (after (quiet (files_in first)) ops.items).files },
    ghost met: { MeetAll (quiet (files_in first)) ops.items } by { meet_all_prop (quiet (files_in first)) ops.items },
    ghost named: { AreNamed (files_in first) },
}

const LIMIT: u64 = 1 << 63;

impl History {
    ghost use Rattle.std.specs.FinMap.{keys};
    ghost use Rattle.std.specs.Option.{option_map};
    ghost use Rattle.log_model.specs.Files.{Reads, IsAbsent, IsName, content, size_of};
    ghost use Rattle.disk_images.specs.Crash.{IsQuiet};
    ghost use Rattle.disk_images.specs.Calls.{Creates, Writes, Syncs, Renames, Removes, Settles};
    ghost use Rattle.disk_fakes.specs.declared.op.Op.TheVariants.{Create, Write, Sync, Rename, Remove, Settle};
    ghost use Rattle.disk_fakes.specs.History.{Meets};
    ghost use Rattle.disk_fakes.specs.Views.{history_view, Did, Stays};

    pub fn new(alloc: Global) -> History
        ensures empty { (m : _) → IsAbsent (history_view result).files m }
        ensures none_gone { (m : _) → ¬ (history_view result).gone m }
        ensures quiet { IsQuiet (history_view result) }
        ensures clock { (history_view result).clock ≡ 0 }
    {
        History {
            alloc,
            first: FileTable::new(alloc),
            table: FileTable::new(alloc),
            ops: Vec::new(alloc),
        }
    }

    /// A quiet history that begins with these files.
    fn quiet(image: FileTable) -> Result<History, AllocError>
        requires { AreNamed (files_in image) }
        ensures view { IfOk result (λ history. (history_view history).files ≡ files_in image) }
        ensures quiet { IfOk result (λ history. IsQuiet (history_view history)) }
        ensures none_gone { (m : _) → IfOk result (λ history. ¬ (history_view history).gone m) }
        ensures clock { IfOk result (λ history. (history_view history).clock ≡ 0) }
    {
        let alloc = image.alloc;
        Ok(History {
            alloc,
            first: image.copy_all()?,
            table: image,
            ops: Vec::new(alloc),
        })
    }

    pub fn crash(&self, moment: u64, choice: u64) -> Result<History, AllocError>
        requires { moment ≤ (history_view self.now).clock }
        ensures image { IfOk result (λ history. (history_view self.now).image moment (history_view history).files) }
        ensures quiet { IfOk result (λ history. IsQuiet (history_view history)) }
        ensures none_gone { (m : _) → IfOk result (λ history. ¬ (history_view history).gone m) }
        ensures clock { IfOk result (λ history. (history_view history).clock ≡ 0) }
    {
        let image = played(&self.first, &self.ops[..moment as usize], choice)?;
        History::quiet(image)
    }

    pub fn clock(&self) -> u64
        ensures { result ≡ (history_view self.now).clock }
    {
        self.ops.len() as u64
    }

    pub fn names(&self, alloc: Global) -> Result<NameList, AllocError>
        ensures { IfOk result (λ names. names ≡ keys (history_view self.now).files) }
    {
        Ok(NameList::of(self.table.names(alloc)?))
    }

    pub fn size(&self, name: Name) -> Option<u64>
        ensures { result ≡ size_of (content (history_view self.now).files name) }
    {
        match self.table.get(name) {
            None => None,
            Some(bytes) => Some(bytes.len() as u64),
        }
    }

    pub fn read(&self, name: Name, at: u64, into: &mut [u8]) -> usize
        requires { ∥ ((c : List ℕ) × Reads (history_view self.now).files name c × (at ≤ length c)) ∥₁ }
        ensures within { result ≤ length into.old }
        ensures count { (c : List ℕ) → Reads (history_view self.now).files name c → result ≡ min (length into.old) (length c - at) }
        ensures bytes { (c : List ℕ) → Reads (history_view self.now).files name c → into.new ≡ take result (drop at c) ++ drop result into.old }
    {
        match self.table.get(name) {
            None => 0,
            Some(bytes) => read_from(bytes, at as usize, into),
        }
    }

    pub fn bytes(&self, name: Name) -> Option<&[u8]>
        ensures { content (history_view self.now).files name ≡ option_map (λ v. v.now) result }
    {
        match self.table.get(name) {
            None => None,
            Some(bytes) => Some(bytes.as_slice()),
        }
    }

    pub fn create(&mut self, name: Name, fails: bool) -> Result<(), Failed>
        requires { Meets (history_view self.old) (Create name) }
        ensures { Creates name result (history_view self.old) (history_view self.new) }
    {
        if fails {
            return Err(Failed);
        }
        match self.create_file(name) {
            Ok(()) => Ok(()),
            Err(_) => Err(Failed),
        }
    }

    /// Writes. A write that is to fail leaves the first half of its bytes, and after them others.
    pub fn write_at(&mut self, name: Name, at: u64, bytes: &[u8], fails: bool) -> Result<(), Failed>
        requires { ∥ ((c : List ℕ) × Reads (history_view self.old).files name c × (at ≤ length c)) ∥₁ }
        ensures fits { OnOk result (at + length bytes.now < 2 ^ 63) }
        ensures writes { Writes name at bytes.now result (history_view self.old) (history_view self.new) }
    {
        if at >= LIMIT || bytes.len() as u64 >= LIMIT - at {
            return Err(Failed);
        }
        match self.write_file(name, at, bytes, fails) {
            Ok(()) => { if fails { Err(Failed) } else { Ok(()) } }
            Err(_) => Err(Failed),
        }
    }

    pub fn sync(&mut self, name: Name, fails: bool) -> Result<(), Failed>
        requires { Meets (history_view self.old) (Sync name) }
        ensures { Syncs name result (history_view self.old) (history_view self.new) }
    {
        if fails {
            return Err(Failed);
        }
        match self.note_sync(name) {
            Ok(()) => Ok(()),
            Err(_) => Err(Failed),
        }
    }

    pub fn rename(&mut self, from: Name, to: Name, fails: bool) -> Result<(), Failed>
        requires { Meets (history_view self.old) (Rename from to) }
        ensures { Renames from to result (history_view self.old) (history_view self.new) }
    {
        if fails {
            return Err(Failed);
        }
        match self.rename_file(from, to) {
            Ok(()) => Ok(()),
            Err(_) => Err(Failed),
        }
    }

    pub fn remove(&mut self, name: Name, fails: bool) -> Result<(), Failed>
        requires { Meets (history_view self.old) (Remove name) }
        ensures { Removes name result (history_view self.old) (history_view self.new) }
    {
        if fails {
            return Err(Failed);
        }
        match self.remove_file(name) {
            Ok(()) => Ok(()),
            Err(_) => Err(Failed),
        }
    }

    pub fn settle(&mut self, fails: bool) -> Result<(), Failed>
        ensures { Settles result (history_view self.old) (history_view self.new) }
    {
        if fails {
            return Err(Failed);
        }
        match self.note_settle() {
            Ok(()) => Ok(()),
            Err(_) => Err(Failed),
        }
    }

    fn create_file(&mut self, name: Name) -> Result<(), AllocError>
        requires { Meets (history_view self.old) (Create name) }
        ensures did { OnOk result (Did (Create name) self.old self.new) }
        ensures stays { OnErr result (Stays self.old self.new) }
    {
        self.ops.reserve(1)?;
        self.table.put(name, Vec::new(self.alloc))?;
        note(&mut self.ops, Op::Create(name));
        Ok(())
    }

    fn write_file(
        &mut self,
        name: Name,
        at: u64,
        bytes: &[u8],
        is_torn: bool,
    ) -> Result<(), AllocError>
        requires { ∥ ((c : List ℕ) × Reads (history_view self.old).files name c × (at ≤ length c)) ∥₁ }
        ensures did { OnOk result ((v : _) × (length v.items ≡ length bytes.now) × (is_torn ≡ false → v.items ≡ bytes.now)
            × Did (Write name at v) self.old self.new) }
        ensures stays { OnErr result (Stays self.old self.new) }
    {
        let copy = carried(self.alloc, bytes, is_torn)?;
        self.ops.reserve(1)?;
        self.table.overwrite(name, at as usize, &copy)?;
        note(&mut self.ops, Op::Write(name, at, copy));
        Ok(())
    }

    fn note_sync(&mut self, name: Name) -> Result<(), AllocError>
        requires { Meets (history_view self.old) (Sync name) }
        ensures did { OnOk result (Did (Sync name) self.old self.new) }
        ensures stays { OnErr result (Stays self.old self.new) }
    {
        self.ops.reserve(1)?;
        note(&mut self.ops, Op::Sync(name));
        Ok(())
    }

    fn note_settle(&mut self) -> Result<(), AllocError>
        ensures did { OnOk result (Did Settle self.old self.new) }
        ensures stays { OnErr result (Stays self.old self.new) }
    {
        self.ops.reserve(1)?;
        note(&mut self.ops, Op::Settle);
        Ok(())
    }

    fn rename_file(&mut self, from: Name, to: Name) -> Result<(), AllocError>
        requires { Meets (history_view self.old) (Rename from to) }
        ensures did { OnOk result (Did (Rename from to) self.old self.new) }
        ensures stays { OnErr result (Stays self.old self.new) }
    {
        self.ops.reserve(1)?;
        let copy = self.table.copy(from)?;
        self.table.put(to, copy)?;
        self.table.remove(from);
        note(&mut self.ops, Op::Rename(from, to));
        Ok(())
    }

    fn remove_file(&mut self, name: Name) -> Result<(), AllocError>
        requires { Meets (history_view self.old) (Remove name) }
        ensures did { OnOk result (Did (Remove name) self.old self.new) }
        ensures stays { OnErr result (Stays self.old self.new) }
    {
        self.ops.reserve(1)?;
        self.table.remove(name);
        note(&mut self.ops, Op::Remove(name));
        Ok(())
    }
}

/// Reads what stands from this place on.
pub fn read_from(bytes: &[u8], at: usize, into: &mut [u8]) -> usize
    requires { at ≤ length bytes.now }
    ensures count { result ≡ min (length into.old) (length bytes.now - at) }
    ensures bytes { into.new ≡ take result (drop at bytes.now) ++ drop result into.old }
{
    let count = min(into.len(), bytes.len() - at);
    into[..count].copy_from_slice(&bytes[at..at + count]);
    count
}
