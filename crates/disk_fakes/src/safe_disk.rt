//! A disk in memory with fixed room.

ghost use Rattle.std.specs.Prelude.{◌≡◌, ◌≤◌, ◌<◌, ◌+◌, ◌-◌, ◌^◌, ◌++◌, ◌↔◌, ℕ, List, length, take, drop, min, slice_index, Option, OnOk, IfOk, IsTrue, IsErr, IsErrOf, vec_len, vec_capacity};
ghost use Rattle.disk_fakes.specs.Safe.{no_files, AreMet};
ghost use Rattle.disk_fakes.specs.SafeLaws.{are_met_prop};

use crate::safe_call::{ByteStep, SafeCall, SizeStep, byte_step, replay, size_step};
use crate::table::FileTable;
use disk_images::{Disk, Failed, Name, NameList, NamesError};
use kv_cell::NoMemory;
use std::alloc::{AllocError, Global};
use std::cmp::min;

/// A disk in memory with room for so many calls that change files, and for so many bytes in all that are written. Each
/// call is durable at once. A create, a write, a rename or a removal for which there is no room is a failure; else no
/// call fails. Once it is made it takes no memory, but for the list that `names` gives. A read goes back through the
/// calls, so it takes time in their number: it is for tests that count each byte of memory.
pub struct SafeDisk {
    calls: Vec<SafeCall>,
    arena: Vec<u8>,
    faults: u64,
    ghost met: { AreMet arena.items no_files calls.items } by { are_met_prop arena.items no_files calls.items },
}

impl Drop for SafeDisk {
    fn drop(self) {
        let SafeDisk {
            calls: _,
            arena: _,
            faults: _,
        } = self;
    }
}

const LIMIT: u64 = 1 << 63;

impl SafeDisk {
    ghost use Rattle.std.specs.FinMap.{keys};
    ghost use Rattle.log_model.specs.Files.{IsAbsent, Reads, content, size_of};
    ghost use Rattle.disk_images.specs.Crash.{IsQuiet};
    ghost use Rattle.disk_images.specs.Calls.{Rose};
    ghost use Rattle.disk_fakes.specs.Table.{files_in};
    ghost use Rattle.disk_fakes.specs.Safe.{Met};
    ghost use Rattle.disk_fakes.specs.SafeViews.{safe_view, safe_files, disk_faults, HasRoom, Noted};

    /// An empty quiet disk with room for so many calls and bytes.
    pub fn new(alloc: Global, capacity: usize) -> Result<SafeDisk, NoMemory>
        ensures empty { IfOk result (λ disk. (m : _) → IsAbsent (safe_view disk).files m) }
        ensures none_gone { IfOk result (λ disk. (m : _) → ¬ (safe_view disk).gone m) }
        ensures quiet { IfOk result (λ disk. IsQuiet (safe_view disk)) }
        ensures clock { IfOk result (λ disk. (safe_view disk).clock ≡ 0) }
        ensures faults { IfOk result (λ disk. disk_faults disk ≡ 0) }
        ensures room { (calls bytes : ℕ) → calls ≤ capacity → bytes ≤ capacity → IfOk result (λ disk. HasRoom disk calls bytes) }
    {
        Ok(SafeDisk {
            calls: Vec::with_capacity(alloc, capacity)?,
            arena: Vec::with_capacity(alloc, capacity)?,
            faults: 0,
        })
    }

    fn fault(&mut self) -> Failed
        ensures calls { self.new.calls ≡ self.old.calls }
        ensures arena { self.new.arena ≡ self.old.arena }
        ensures later { disk_faults self.old ≤ disk_faults self.new }
        ensures rose { Rose (disk_faults self.old) (disk_faults self.new) }
    {
        self.faults = self.faults.saturating_add(1);
        Failed
    }

    fn has_room(&self, bytes: usize) -> bool
        ensures room { IsTrue result → HasRoom self.now 1 bytes }
        ensures full { HasRoom self.now 1 bytes → IsTrue result }
    {
        self.calls.len() < self.calls.capacity()
            && bytes <= self.arena.capacity() - self.arena.len()
    }

    /// Keeps a call and its bytes, for which there is room.
    fn note(&mut self, call: SafeCall, bytes: &[u8])
        requires room { HasRoom self.old 1 (length bytes.now) }
        requires met { Met (self.old.arena.items ++ bytes.now) (safe_files self.old) call }
        ensures { Noted call bytes.now self.old self.new }
    {
        keep(&mut self.arena, bytes);
        self.calls.push_reserved(call);
    }

    /// The files as they read.
    fn replayed(&self, alloc: Global) -> Result<FileTable, AllocError>
        ensures { IfOk result (λ table. files_in table ≡ safe_files self.now) }
    {
        let mut table = FileTable::new(alloc);
        for call in &self.calls {
            replay(&mut table, *call, &self.arena)?;
        }
        Ok(table)
    }

    fn size_of(&self, name: Name) -> Option<u64>
        ensures { result ≡ size_of (content (safe_files self.now) name) }
    {
        let mut current = name;
        let mut reach = 0;
        let mut left = self.calls.len();
        while left > 0 {
            left -= 1;
            match size_step(self.calls[left], current, reach) {
                SizeStep::Is(size) => return Some(size),
                SizeStep::NotThere => return None,
                SizeStep::Before(former, longer) => {
                    current = former;
                    reach = longer;
                }
            }
        }
        None
    }

    fn byte_at(&self, name: Name, place: u64) -> u8
        requires { ∥ ((c : List ℕ) × Reads (safe_files self.now) name c × (place + 1 ≤ length c)) ∥₁ }
        ensures { (c : List ℕ) → Reads (safe_files self.now) name c → result ≡ slice_index c place }
    {
        let mut current = name;
        let mut left = self.calls.len();
        while left > 0 {
            left -= 1;
            match byte_step(self.calls[left], current, place) {
                ByteStep::At(start, offset) => return self.arena[start + offset],
                ByteStep::Before(former) => current = former,
            }
        }
        unreachable!()
    }

    /// How many bytes stand in a file from an offset on.
    fn left_of(&self, name: Name, at: u64) -> u64
        ensures left { (c : List ℕ) → Reads (safe_files self.now) name c → result ≡ length c - at }
        ensures fits { (c : List ℕ) → Reads (safe_files self.now) name c → length c < 2 ^ 64 }
    {
        match self.size_of(name) {
            None => 0,
            Some(size) => size.saturating_sub(at),
        }
    }

    /// Reads what stands in a file from an offset on.
    fn read_from(&self, name: Name, at: u64, into: &mut [u8]) -> usize
        requires { ∥ ((c : List ℕ) × Reads (safe_files self.now) name c × (at ≤ length c)) ∥₁ }
        ensures within { result ≤ length into.old }
        ensures count { (c : List ℕ) → Reads (safe_files self.now) name c → result ≡ min (length into.old) (length c - at) }
        ensures bytes { (c : List ℕ) → Reads (safe_files self.now) name c → into.new ≡ take result (drop at c) ++ drop result into.old }
    {
        let count = (into.len() as u64).min(self.left_of(name, at)) as usize;
        for i in 0..count {
            into[i] = self.byte_at(name, at + i as u64);
        }
        count
    }
}

/// Adds bytes, for which there is room.
fn keep(arena: &mut Vec<u8>, bytes: &[u8])
    requires { vec_len arena.old + length bytes.now ≤ vec_capacity arena.old }
    ensures items { arena.new.items ≡ arena.old.items ++ bytes.now }
    ensures len { vec_len arena.new ≡ vec_len arena.old + length bytes.now }
    ensures capacity { vec_capacity arena.old ≤ vec_capacity arena.new }
{
    match arena.extend_from_slice(bytes) {
        Ok(()) => {}
        Err(_) => unreachable!(),
    }
}

impl Disk for SafeDisk {
    ghost use Rattle.std.specs.Prelude.{true};
    ghost use Rattle.std.specs.FinMap.{keys};
    ghost use Rattle.log_model.specs.Files.{IsAbsent, Reads, IsName, content, size_of};
    ghost use Rattle.disk_images.specs.Calls.{HasCause, Looks, Creates, Writes, Syncs, Renames, Removes, Settles};
    ghost use Rattle.disk_fakes.specs.SafeLaws.{safe_is_true};
    ghost use Rattle.disk_fakes.specs.SafeViews.{safe_view, safe_files, disk_faults, HasRoom, TakesAtMost};

    ghost told = { true };

    ghost view = { safe_view };

    ghost faults = { disk_faults };

    ghost is_true = { λ d told. safe_is_true d.arena.items d.calls.items d.met };

    fn names(&mut self, alloc: Global) -> Result<NameList, NamesError>
        ensures names { IfOk result (λ names. names ≡ keys (safe_view self.old).files) }
        ensures looks { Looks (safe_view self.old) (safe_view self.new) }
        ensures cause { HasCause (disk_faults self.old) (disk_faults self.new) (IsErrOf result NamesError.Failed) }
        ensures same { self.new ≡ self.old }
    {
        let Ok(table) = self.replayed(alloc) else {
            return Err(NamesError::Memory);
        };
        match table.names(alloc) {
            Ok(names) => Ok(NameList::of(names)),
            Err(_) => Err(NamesError::Memory),
        }
    }

    fn size(&mut self, name: Name) -> Result<Option<u64>, Failed>
        ensures size { IfOk result (λ size. size ≡ size_of (content (safe_view self.old).files name)) }
        ensures looks { Looks (safe_view self.old) (safe_view self.new) }
        ensures cause { HasCause (disk_faults self.old) (disk_faults self.new) (IsErr result) }
        ensures same { self.new ≡ self.old }
    {
        Ok(self.size_of(name))
    }

    fn read(&mut self, name: Name, at: u64, into: &mut [u8]) -> Result<usize, Failed>
        requires { ∥ ((c : List ℕ) × Reads (safe_view self.old).files name c × (at ≤ length c)) ∥₁ }
        ensures within { IfOk result (λ n. n ≤ length into.old) }
        ensures count { (c : List ℕ) → Reads (safe_view self.old).files name c → IfOk result (λ n. n ≡ min (length into.old) (length c - at)) }
        ensures bytes { (c : List ℕ) → Reads (safe_view self.old).files name c → IfOk result (λ n. into.new ≡ take n (drop at c) ++ drop n into.old) }
        ensures looks { Looks (safe_view self.old) (safe_view self.new) }
        ensures cause { HasCause (disk_faults self.old) (disk_faults self.new) (IsErr result) }
        ensures same { self.new ≡ self.old }
    {
        Ok(self.read_from(name, at, into))
    }

    fn create(&mut self, name: Name) -> Result<(), Failed>
        requires absent { IsAbsent (safe_view self.old).files name × (¬ (safe_view self.old).gone name) }
        requires named { IsName name }
        ensures creates { Creates name result (safe_view self.old) (safe_view self.new) }
        ensures cause { HasCause (disk_faults self.old) (disk_faults self.new) (IsErr result) }
        ensures calm { HasRoom self.old 1 0 → disk_faults self.new ≡ disk_faults self.old }
        ensures room { TakesAtMost 1 0 self.old self.new }
    {
        if !self.has_room(0) {
            return Err(self.fault());
        }
        self.note(SafeCall::Create(name), &[]);
        Ok(())
    }

    fn write_at(&mut self, name: Name, at: u64, bytes: &[u8]) -> Result<(), Failed>
        requires there { ∥ ((c : List ℕ) × Reads (safe_view self.old).files name c × (at ≤ length c)) ∥₁ }
        requires some { 0 < length bytes.now }
        ensures fits { OnOk result (at + length bytes.now < 2 ^ 63) }
        ensures writes { Writes name at bytes.now result (safe_view self.old) (safe_view self.new) }
        ensures cause { HasCause (disk_faults self.old) (disk_faults self.new) (IsErr result) }
        ensures calm { HasRoom self.old 1 (length bytes.now) → at + length bytes.now < 2 ^ 63 → disk_faults self.new ≡ disk_faults self.old }
        ensures room { TakesAtMost 1 (length bytes.now) self.old self.new }
    {
        if at >= LIMIT || bytes.len() as u64 >= LIMIT - at {
            return Err(self.fault());
        }
        if !self.has_room(bytes.len()) {
            return Err(self.fault());
        }
        let start = self.arena.len();
        self.note(SafeCall::Write(name, at, start, bytes.len()), bytes);
        Ok(())
    }

    fn sync(&mut self, name: Name) -> Result<(), Failed>
        requires { ∥ ((c : List ℕ) × Reads (safe_view self.old).files name c) ∥₁ }
        ensures syncs { Syncs name result (safe_view self.old) (safe_view self.new) }
        ensures cause { HasCause (disk_faults self.old) (disk_faults self.new) (IsErr result) }
        ensures same { self.new ≡ self.old }
    {
        Ok(())
    }

    fn rename(&mut self, from: Name, to: Name) -> Result<(), Failed>
        requires from { ∥ ((c : List ℕ) × Reads (safe_view self.old).files from c) ∥₁ }
        requires to { IsAbsent (safe_view self.old).files to × (¬ (safe_view self.old).gone to) }
        requires named { IsName to }
        ensures renames { Renames from to result (safe_view self.old) (safe_view self.new) }
        ensures cause { HasCause (disk_faults self.old) (disk_faults self.new) (IsErr result) }
        ensures calm { HasRoom self.old 1 0 → disk_faults self.new ≡ disk_faults self.old }
        ensures room { TakesAtMost 1 0 self.old self.new }
    {
        if !self.has_room(0) {
            return Err(self.fault());
        }
        self.note(SafeCall::Rename(from, to), &[]);
        Ok(())
    }

    fn remove(&mut self, name: Name) -> Result<(), Failed>
        requires { ∥ ((c : List ℕ) × Reads (safe_view self.old).files name c) ∥₁ }
        ensures removes { Removes name result (safe_view self.old) (safe_view self.new) }
        ensures cause { HasCause (disk_faults self.old) (disk_faults self.new) (IsErr result) }
        ensures calm { HasRoom self.old 1 0 → disk_faults self.new ≡ disk_faults self.old }
        ensures room { TakesAtMost 1 0 self.old self.new }
    {
        if !self.has_room(0) {
            return Err(self.fault());
        }
        self.note(SafeCall::Remove(name), &[]);
        Ok(())
    }

    fn settle(&mut self) -> Result<(), Failed>
        ensures settles { Settles result (safe_view self.old) (safe_view self.new) }
        ensures cause { HasCause (disk_faults self.old) (disk_faults self.new) (IsErr result) }
        ensures same { self.new ≡ self.old }
    {
        Ok(())
    }
}
