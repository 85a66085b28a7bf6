// The files of a system in memory: names that lead to inodes, and the bytes of each inode.
ghost use Rattle.std.specs.Prelude.{◌≡◌, ◌<◌, ◌≤◌, ◌↔◌, [], length, Some, None, Contains, IsTrue, OnOk, OnErr, IfOk};
ghost use Rattle.std.specs.FinMap.{get, keys};
ghost use Rattle.disk_images.specs.Crash.{overwritten};
ghost use Rattle.std.specs.BTreeMap as tree;
ghost use Rattle.std.specs.BTreeMap.{IsOrdered};
ghost use Rattle.system_fakes.specs.Order.{order};
ghost use Rattle.system_fakes.specs.History.{Meets};
ghost use Rattle.system_fakes.specs.Held.{held_after, nothing, bytes_of, created, begun, written, doubted, moved, unlinked, placed};
ghost use Rattle.system_fakes.specs.Table.{held_in};

use crate::op::Op;
use crate::piece::{push_file, push_inode, write_file};
use disk_images::Name;
use std::alloc::{AllocError, Global};
use std::collections::BTreeMap;

#[derive(Drop)]
pub struct Table {
    pub alloc: Global,
    pub names: BTreeMap<Name, u64>,
    pub parts: BTreeMap<Name, u64>,
    pub files: Vec<Vec<u8>>,
    pub doubts: Vec<u64>,
}

impl Table {
    pub fn new(alloc: Global) -> Table
        ensures { held_in result ≡ nothing }
    {
        Table {
            alloc,
            names: BTreeMap::new(alloc),
            parts: BTreeMap::new(alloc),
            files: Vec::new(alloc),
            doubts: Vec::new(alloc),
        }
    }

    /// The inode that a name leads to.
    pub fn inode(&self, name: Name) -> Option<u64>
        ensures { result ≡ get (held_in self.now).folder name }
    {
        self.names.get(&name).copied()
    }

    /// The inode of the copy that waits for this name.
    pub fn part(&self, name: Name) -> Option<u64>
        ensures { result ≡ get (held_in self.now).parts name }
    {
        self.parts.get(&name).copied()
    }

    /// The bytes of an inode; of one that was not given, none.
    pub fn bytes(&self, inode: u64) -> &[u8]
        ensures { result.now ≡ bytes_of (held_in self.now) inode }
    {
        match self.files.get(inode as usize) {
            None => &[],
            Some(file) => file,
        }
    }

    /// Tells whether the inode was given.
    pub fn has(&self, inode: u64) -> bool
        ensures { IsTrue result ↔ (inode < length (held_in self.now).files) }
    {
        inode < self.files.len() as u64
    }

    pub fn is_doubtful(&self, inode: u64) -> bool
        ensures { IsTrue result ↔ Contains (held_in self.now).doubtful inode }
    {
        self.doubts.contains(&inode)
    }

    /// All names in order.
    pub fn all_names(&self, alloc: Global) -> Result<Vec<Name>, AllocError>
        ensures { IfOk result (λ names. names.items ≡ keys (held_in self.now).folder) }
    {
        key_list(alloc, &self.names)
    }

    /// How many inodes were given; the next file gets this one.
    pub fn given(&self) -> u64
        ensures { result ≡ length (held_in self.now).files }
    {
        self.files.len() as u64
    }

    /// Makes an empty file.
    pub fn create(&mut self, name: Name) -> Result<(), AllocError>
        ensures made { OnOk result (held_in self.new ≡ created (held_in self.old) name) }
        ensures err { OnErr result (held_in self.new ≡ held_in self.old) }
    {
        let inode = self.given();
        self.files.reserve(1)?;
        self.names.insert(name, inode)?;
        push_file(&mut self.files, Vec::new(self.alloc));
        Ok(())
    }

    /// Makes an empty copy that waits for this name.
    fn begin(&mut self, name: Name) -> Result<(), AllocError>
        ensures made { OnOk result (held_in self.new ≡ begun (held_in self.old) name) }
        ensures err { OnErr result (held_in self.new ≡ held_in self.old) }
    {
        let inode = self.given();
        self.files.reserve(1)?;
        self.parts.insert(name, inode)?;
        push_file(&mut self.files, Vec::new(self.alloc));
        Ok(())
    }

    /// Writes over what is there, and past the end.
    pub fn write(&mut self, inode: u64, at: u64, bytes: &[u8]) -> Result<(), AllocError>
        requires given { inode < length (held_in self.old).files }
        requires within { at ≤ length (bytes_of (held_in self.old) inode) }
        ensures written { OnOk result (held_in self.new ≡ written (held_in self.old) inode at bytes.now) }
        ensures err { OnErr result (held_in self.new ≡ held_in self.old) }
    {
        write_file(&mut self.files, inode as usize, at as usize, bytes)
    }

    /// Writes, and notes that the write has failed.
    fn tear(&mut self, inode: u64, at: u64, bytes: &[u8]) -> Result<(), AllocError>
        requires given { inode < length (held_in self.old).files }
        requires within { at ≤ length (bytes_of (held_in self.old) inode) }
        ensures torn { OnOk result (held_in self.new ≡ doubted (written (held_in self.old) inode at bytes.now) inode) }
        ensures err { OnErr result (held_in self.new ≡ held_in self.old) }
    {
        self.doubts.reserve(1)?;
        write_file(&mut self.files, inode as usize, at as usize, bytes)?;
        push_inode(&mut self.doubts, inode);
        Ok(())
    }

    /// Notes that an fsync has failed.
    fn doubt(&mut self, inode: u64) -> Result<(), AllocError>
        ensures doubted { OnOk result (held_in self.new ≡ doubted (held_in self.old) inode) }
        ensures err { OnErr result (held_in self.new ≡ held_in self.old) }
    {
        self.doubts.push(inode)?;
        Ok(())
    }

    /// Gives a file another name, which no file has.
    fn rename(&mut self, inode: u64, from: Name, to: Name) -> Result<(), AllocError>
        requires from { get (held_in self.old).folder from ≡ Some inode }
        requires to { get (held_in self.old).folder to ≡ None }
        ensures moved { OnOk result (held_in self.new ≡ moved (held_in self.old) inode from to) }
        ensures err { OnErr result (held_in self.new ≡ held_in self.old) }
    {
        self.names.insert(to, inode)?;
        let _ = self.names.remove(&from);
        Ok(())
    }

    pub fn unlink(&mut self, name: Name) -> Result<(), AllocError>
        ensures unlinked { OnOk result (held_in self.new ≡ unlinked (held_in self.old) name) }
        ensures err { OnErr result (held_in self.new ≡ held_in self.old) }
    {
        let _ = self.names.remove(&name);
        Ok(())
    }

    /// Gives a copy its file's name.
    fn place(&mut self, inode: u64, name: Name) -> Result<(), AllocError>
        ensures placed { OnOk result (held_in self.new ≡ placed (held_in self.old) inode name) }
        ensures err { OnErr result (held_in self.new ≡ held_in self.old) }
    {
        self.names.insert(name, inode)?;
        let _ = self.parts.remove(&name);
        Ok(())
    }

    /// Does a call.
    pub fn apply(&mut self, op: &Op) -> Result<(), AllocError>
        requires { Meets (held_in self.old) op.now }
        ensures done { OnOk result (held_in self.new ≡ held_after (held_in self.old) op.now) }
        ensures err { OnErr result (held_in self.new ≡ held_in self.old) }
    {
        match op {
            Op::Create(name) => self.create(*name),
            Op::Begin(name) => self.begin(*name),
            Op::Write(inode, at, bytes) => self.write(*inode, *at, bytes),
            Op::Tear(inode, at, bytes) => self.tear(*inode, *at, bytes),
            Op::Doubt(inode) => self.doubt(*inode),
            Op::Move(inode, from, to) => self.rename(*inode, *from, *to),
            Op::Unlink(_, name) => self.unlink(*name),
            Op::Place(inode, name) => self.place(*inode, *name),
            Op::Sync(_) => Ok(()),
            Op::SyncFolder => Ok(()),
            Op::Tick => Ok(()),
        }
    }
}

/// The keys in order.
fn key_list(alloc: Global, names: &BTreeMap<Name, u64>) -> Result<Vec<Name>, AllocError>
    ensures keys { IfOk result (λ list. list.items ≡ tree.keys names.now) }
    ensures ordered { IsOrdered order names.now }
{
    names.keys().copied().collect(alloc)
}
