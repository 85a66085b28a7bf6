// A system's calls, what it held before them, and what it holds now.
ghost use Rattle.std.specs.Prelude.{◌≡◌, ◌≤◌, ◌<◌, ◌+◌, ◌-◌, ◌^◌, ◌++◌, ℕ, length, min, take, drop, Some, OnOk, OnErr, IfOk, IsTrue};
ghost use Rattle.system_fakes.specs.Table.{held_in};
ghost use Rattle.system_fakes.specs.Held.{held_prop};
ghost use Rattle.system_fakes.specs.History.{after, quiet, MeetAll, Meets};
ghost use Rattle.system_fakes.specs.Conditions.{AreNamed, AreSingle, AreGiven, HasNoPart, IsCertain, meet_all_prop};

use crate::fake_file::FakeFile;
use crate::op::{Op, note};
use crate::piece::{carried, read_from};
use crate::plan::{Fate, failure};
use crate::table::Table;
use disk_images::Name;
use std::alloc::{AllocError, Global};
use std::io;

const LIMIT: u64 = 1 << 63;

#[derive(Drop)]
pub struct History {
    pub first: Table,
    pub table: Table,
    pub ops: Vec<Op>,
    ghost tied: { held_in table ≡ (after (quiet (held_in first)) ops.items).held } by { held_prop (held_in table) (after (quiet (held_in first)) ops.items).held },
    ghost met: { MeetAll (quiet (held_in first)) ops.items } by { meet_all_prop (quiet (held_in first)) ops.items },
    ghost named: { AreNamed (held_in first) },
    ghost single: { AreSingle (held_in first) },
    ghost given: { AreGiven (held_in first) },
    ghost no_part: { HasNoPart (held_in first) },
    ghost certain: { IsCertain (held_in first) },
}

impl History {
    ghost use Rattle.std.specs.FinMap.{get, keys};
    ghost use Rattle.std.specs.FinMap as map;
    ghost use Rattle.std.specs.Option.{option_map};
    ghost use Rattle.log_model.specs.Files.{IsName};
    ghost use Rattle.folder_system.specs.Calls.{Looks, Creates, Writes, SyncsFile, Renames, Unlinks, SyncsFolder, CreatesPart, PutsInPlace, Ticks};
    ghost use Rattle.system_fakes.specs.Views.{history_view, inode_of, Did, Stays};
    ghost use Rattle.std.specs.Prelude.{is_some, true};

    pub fn new(alloc: Global) -> History
        ensures { (history_view result).folder ≡ map.empty }
    {
        History {
            first: Table::new(alloc),
            table: Table::new(alloc),
            ops: Vec::new(alloc),
        }
    }

    pub fn names(&self, alloc: Global, fate: Fate) -> io::Result<Vec<Name>>
        ensures { IfOk result (λ names. names.items ≡ keys (history_view self.now).folder) }
    {
        if fate.is_failed() {
            return Err(failure());
        }
        match self.table.all_names(alloc) {
            Ok(names) => Ok(names),
            Err(_) => Err(failure()),
        }
    }

    pub fn length(&self, name: Name, fate: Fate) -> io::Result<Option<u64>>
        ensures { IfOk result (λ n. n ≡ option_map (λ i. length ((history_view self.now).bytes i)) (get (history_view self.now).folder name)) }
    {
        if fate.is_failed() {
            return Err(failure());
        }
        match self.table.inode(name) {
            None => Ok(None),
            Some(inode) => Ok(Some(self.table.bytes(inode).len() as u64)),
        }
    }

    pub fn open(&self, name: Name, fate: Fate) -> io::Result<FakeFile>
        ensures { IfOk result (λ file. get (history_view self.now).folder name ≡ Some (inode_of file)) }
    {
        if fate.is_failed() {
            return Err(failure());
        }
        match self.table.inode(name) {
            None => Err(failure()),
            Some(inode) => Ok(FakeFile { inode }),
        }
    }

    pub fn read(&self, file: &FakeFile, at: u64, into: &mut [u8], fate: Fate) -> io::Result<usize>
        ensures within { IfOk result (λ n. n ≤ length into.old) }
        ensures count { IfOk result (λ n. n ≡ min (length into.old) (length ((history_view self.now).bytes (inode_of file.now)) - at)) }
        ensures bytes { IfOk result (λ n. into.new ≡ take n (drop at ((history_view self.now).bytes (inode_of file.now))) ++ drop n into.old) }
    {
        if fate.is_failed() {
            return Err(failure());
        }
        Ok(read_from(self.table.bytes(file.inode), at, into))
    }

    pub fn create(&mut self, name: Name, fate: Fate) -> io::Result<FakeFile>
        requires { IsName name }
        ensures { Creates inode_of name result (history_view self.old) (history_view self.new) }
    {
        if fate.is_refused() || self.table.inode(name).is_some() {
            return Err(failure());
        }
        let inode = self.table.given();
        match self.apply(Op::Create(name)) {
            Ok(()) => fate.answer(FakeFile { inode }),
            Err(_) => Err(failure()),
        }
    }

    pub fn create_part(&mut self, name: Name, fate: Fate) -> io::Result<FakeFile>
        ensures { CreatesPart inode_of name result (history_view self.old) (history_view self.new) }
    {
        if fate.is_refused() {
            return Err(failure());
        }
        let inode = self.table.given();
        match self.apply(Op::Begin(name)) {
            Ok(()) => fate.answer(FakeFile { inode }),
            Err(_) => Err(failure()),
        }
    }

    /// Writes. A write that fails leaves nothing, or the first half of its bytes and after them others.
    pub fn write(&mut self, file: &FakeFile, at: u64, bytes: &[u8], fate: Fate) -> io::Result<()>
        requires { at ≤ length ((history_view self.old).bytes (inode_of file.now)) }
        ensures fits { OnOk result (at + length bytes.now < 2 ^ 63) }
        ensures writes { Writes (inode_of file.now) at bytes.now result (history_view self.old) (history_view self.new) }
    {
        if fate.is_refused() || !self.table.has(file.inode) {
            return Err(failure());
        }
        if at >= LIMIT || bytes.len() as u64 >= LIMIT - at {
            return Err(failure());
        }
        if fate.is_failed() {
            self.tear(file.inode, at, bytes)
        } else {
            self.write_whole(file.inode, at, bytes)
        }
    }

    fn write_whole(&mut self, inode: u64, at: u64, bytes: &[u8]) -> io::Result<()>
        requires given { inode < length (held_in self.old.table).files }
        requires within { at ≤ length ((history_view self.old).bytes inode) }
        ensures { Writes inode at bytes.now result (history_view self.old) (history_view self.new) }
    {
        let copy = match carried(self.table.alloc, bytes, false) {
            Ok(copy) => copy,
            Err(_) => return Err(failure()),
        };
        match self.apply(Op::Write(inode, at, copy)) {
            Ok(()) => Ok(()),
            Err(_) => Err(failure()),
        }
    }

    fn tear(&mut self, inode: u64, at: u64, bytes: &[u8]) -> io::Result<()>
        requires given { inode < length (held_in self.old.table).files }
        requires within { at ≤ length ((history_view self.old).bytes inode) }
        ensures { Writes inode at bytes.now result (history_view self.old) (history_view self.new) }
    {
        let copy = match carried(self.table.alloc, bytes, true) {
            Ok(copy) => copy,
            Err(_) => return Err(failure()),
        };
        match self.apply(Op::Tear(inode, at, copy)) {
            Ok(()) => Err(failure()),
            Err(_) => Err(failure()),
        }
    }

    /// An fsync of a doubtful file answers ok, and pins nothing.
    pub fn sync(&mut self, file: &FakeFile, fate: Fate) -> io::Result<()>
        ensures { SyncsFile (inode_of file.now) result (history_view self.old) (history_view self.new) }
    {
        if !self.table.has(file.inode) {
            return Err(failure());
        }
        if fate.is_failed() {
            return self.doubt(file.inode);
        }
        if self.table.is_doubtful(file.inode) {
            return Ok(());
        }
        match self.apply(Op::Sync(file.inode)) {
            Ok(()) => Ok(()),
            Err(_) => Err(failure()),
        }
    }

    fn doubt(&mut self, inode: u64) -> io::Result<()>
        requires { inode < length (held_in self.old.table).files }
        ensures { SyncsFile inode result (history_view self.old) (history_view self.new) }
    {
        match self.apply(Op::Doubt(inode)) {
            Ok(()) => Err(failure()),
            Err(_) => Err(failure()),
        }
    }

    pub fn rename(&mut self, from: Name, to: Name, fate: Fate) -> io::Result<()>
        requires { IsName to }
        ensures { Renames from to result (history_view self.old) (history_view self.new) }
    {
        if fate.is_refused() || self.table.inode(to).is_some() {
            return Err(failure());
        }
        let inode = match self.table.inode(from) {
            Some(inode) => inode,
            None => return Err(failure()),
        };
        match self.apply(Op::Move(inode, from, to)) {
            Ok(()) => fate.answer(()),
            Err(_) => Err(failure()),
        }
    }

    pub fn unlink(&mut self, name: Name, fate: Fate) -> io::Result<()>
        ensures { Unlinks name result (history_view self.old) (history_view self.new) }
    {
        if fate.is_refused() {
            return Err(failure());
        }
        let inode = match self.table.inode(name) {
            Some(inode) => inode,
            None => return Err(failure()),
        };
        match self.apply(Op::Unlink(inode, name)) {
            Ok(()) => fate.answer(()),
            Err(_) => Err(failure()),
        }
    }

    pub fn put_in_place(&mut self, name: Name, fate: Fate) -> io::Result<()>
        requires { is_some (get (history_view self.old).folder name) ≡ true }
        ensures { PutsInPlace name result (history_view self.old) (history_view self.new) }
    {
        if fate.is_refused() {
            return Err(failure());
        }
        let inode = match self.table.part(name) {
            Some(inode) => inode,
            None => return Err(failure()),
        };
        match self.apply(Op::Place(inode, name)) {
            Ok(()) => fate.answer(()),
            Err(_) => Err(failure()),
        }
    }

    pub fn sync_folder(&mut self, fate: Fate) -> io::Result<()>
        ensures { SyncsFolder result (history_view self.old) (history_view self.new) }
    {
        if fate.is_failed() {
            return Err(failure());
        }
        match self.apply(Op::SyncFolder) {
            Ok(()) => Ok(()),
            Err(_) => Err(failure()),
        }
    }

    pub fn tick(&mut self) -> io::Result<()>
        ensures ticks { OnOk result (Ticks (history_view self.old) (history_view self.new)) }
        ensures failed { OnErr result (Looks (history_view self.old) (history_view self.new)) }
    {
        match self.apply(Op::Tick) {
            Ok(()) => Ok(()),
            Err(_) => Err(failure()),
        }
    }

    /// Does a call, and keeps it.
    fn apply(&mut self, op: Op) -> Result<(), AllocError>
        requires { Meets (held_in self.old.table) op }
        ensures did { OnOk result (Did op self.old self.new) }
        ensures stays { OnErr result (Stays self.old self.new) }
    {
        self.ops.reserve(1)?;
        self.table.apply(&op)?;
        note(&mut self.ops, op);
        Ok(())
    }
}
