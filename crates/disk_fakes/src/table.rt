// Files in memory, by their names.
ghost use Rattle.std.specs.Prelude.{◌≡◌, ◌≢◌, ◌≤◌, ◌+◌, ◌-◌, take, ℕ, [], List, length, OnOk, OnErr, IfOk, Option, Some, None, IsTrue, ◌↔◌};
ghost use Rattle.std.specs.FinMap as map;
ghost use Rattle.log_model.specs.Files.{Files, content, Reads, IsAbsent, SameBut};
ghost use Rattle.std.specs.Option.{option_map};
ghost use Rattle.disk_images.specs.Crash.{overwritten};
ghost use Rattle.std.specs.BTreeMap as tree;
ghost use Rattle.std.specs.BTreeMap.{IsOrdered};
ghost use Rattle.disk_fakes.specs.Order.{order};
ghost use Rattle.disk_fakes.specs.Table.{files_in};
ghost use Rattle.disk_fakes.specs.History.{Reaches};
ghost use Rattle.disk_fakes.specs.Candidate.{WritesWithin};

use disk_images::Name;
use std::alloc::{AllocError, Global};
use std::cmp::min;
use std::collections::BTreeMap;

#[derive(Drop)]
pub struct FileTable {
    pub alloc: Global,
    pub files: BTreeMap<Name, Vec<u8>>,
}

impl FileTable {
    pub fn new(alloc: Global) -> FileTable
        ensures { files_in result ≡ map.empty }
    {
        FileTable {
            alloc,
            files: BTreeMap::new(alloc),
        }
    }

    /// Puts a file under a name.
    pub fn put(&mut self, name: Name, bytes: Vec<u8>) -> Result<(), AllocError>
        ensures put { OnOk result (Reads (files_in self.new) name bytes.items) }
        ensures others { SameBut name (files_in self.old) (files_in self.new) }
        ensures err { OnErr result (files_in self.new ≡ files_in self.old) }
    {
        self.files.insert(name, bytes)?;
        Ok(())
    }

    /// A copy of all files.
    pub fn copy_all(&self) -> Result<FileTable, AllocError>
        ensures { IfOk result (λ copy. files_in copy ≡ files_in self.now) }
    {
        Ok(FileTable {
            alloc: self.alloc,
            files: self.files.clone()?,
        })
    }

    pub fn get(&self, name: Name) -> Option<&Vec<u8>>
        ensures { content (files_in self.now) name ≡ option_map (λ v. v.now.items) result }
    {
        self.files.get(&name)
    }

    pub fn copy(&self, name: Name) -> Result<Vec<u8>, AllocError>
        ensures { (c : List ℕ) → Reads (files_in self.now) name c → IfOk result (λ copy. copy.items ≡ c) }
    {
        match self.get(name) {
            None => Ok(Vec::new(self.alloc)),
            Some(bytes) => copied(self.alloc, bytes),
        }
    }

    pub fn remove(&mut self, name: Name)
        ensures removed { IsAbsent (files_in self.new) name }
        ensures others { SameBut name (files_in self.old) (files_in self.new) }
    {
        let _ = self.files.remove(&name);
    }

    /// Writes over what is there, and past the end.
    pub fn overwrite(&mut self, name: Name, at: usize, bytes: &[u8]) -> Result<(), AllocError>
        requires { (c : List ℕ) × Reads (files_in self.old) name c × (at ≤ length c) }
        ensures written { (c : List ℕ) → Reads (files_in self.old) name c → OnOk result (Reads (files_in self.new) name (overwritten c at bytes.now)) }
        ensures others { SameBut name (files_in self.old) (files_in self.new) }
        ensures err { (c : List ℕ) → Reads (files_in self.old) name c → OnErr result (Reads (files_in self.new) name c) }
    {
        match self.files.get_mut(&name) {
            None => Ok(()),
            Some(file) => write_over(file, at, bytes),
        }
    }

    /// Tells whether the file is there, and has so many bytes.
    fn reaches(&self, name: Name, at: u64) -> bool
        ensures { IsTrue result ↔ Reaches at (content (files_in self.now) name) }
    {
        match self.get(name) {
            None => false,
            Some(bytes) => at <= bytes.len() as u64,
        }
    }

    /// Writes over what is there, and past the end, if the file is there and has so many bytes.
    pub fn write_within(&mut self, name: Name, at: u64, bytes: &[u8]) -> Result<(), AllocError>
        ensures { OnOk result (WritesWithin name at bytes.now (files_in self.old) (files_in self.new)) }
    {
        if self.reaches(name, at) {
            self.overwrite(name, at as usize, bytes)
        } else {
            Ok(())
        }
    }

    /// All names in order.
    pub fn names(&self, alloc: Global) -> Result<Vec<Name>, AllocError>
        ensures { IfOk result (λ names. names.items ≡ map.keys (files_in self.now)) }
    {
        key_list(alloc, &self.files)
    }
}

/// The keys in order.
fn key_list(alloc: Global, files: &BTreeMap<Name, Vec<u8>>) -> Result<Vec<Name>, AllocError>
    ensures keys { IfOk result (λ names. names.items ≡ tree.keys files.now) }
    ensures ordered { IsOrdered order files.now }
{
    files.keys().copied().collect(alloc)
}

/// Writes over what is there, and past the end.
fn write_over(file: &mut Vec<u8>, at: usize, bytes: &[u8]) -> Result<(), AllocError>
    requires { at ≤ length file.old.items }
    ensures written { OnOk result (file.new.items ≡ overwritten file.old.items at bytes.now) }
    ensures err { OnErr result (file.new.items ≡ file.old.items) }
{
    file.reserve(bytes.len())?;
    let over = min(file.len() - at, bytes.len());
    file[at..at + over].copy_from_slice(&bytes[..over]);
    match file.extend_from_slice(&bytes[over..]) {
        Ok(()) => Ok(()),
        Err(_) => unreachable!(),
    }
}

pub fn copied(alloc: Global, bytes: &[u8]) -> Result<Vec<u8>, AllocError>
    ensures { IfOk result (λ copy. copy.items ≡ bytes.now) }
{
    bytes.to_vec(alloc)
}
