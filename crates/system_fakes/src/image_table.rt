// A table as an image of a crash.
ghost use Rattle.std.specs.Prelude.{◌≡◌, Some, OnOk, IfOk, IsTrue};
ghost use Rattle.std.specs.FinMap.{get};
ghost use Rattle.system_fakes.specs.Held.{moved};
ghost use Rattle.system_fakes.specs.Image.{skipped, replaced, pointed, named_as};
ghost use Rattle.system_fakes.specs.Table.{held_in};

use crate::piece::{carried, push_file};
use crate::table::Table;
use disk_images::Name;
use std::alloc::AllocError;

impl Table {
    /// A copy of all files.
    pub fn copy(&self) -> Result<Table, AllocError>
        ensures { IfOk result (λ copy. held_in copy ≡ held_in self.now) }
    {
        Ok(Table {
            alloc: self.alloc,
            names: self.names.clone()?,
            parts: self.parts.clone()?,
            files: self.files.clone()?,
            doubts: self.doubts.clone()?,
        })
    }

    /// Tells whether the name leads to this inode.
    pub fn leads(&self, name: Name, inode: u64) -> bool
        ensures { IsTrue result → get (held_in self.now).folder name ≡ Some inode }
    {
        match self.inode(name) {
            None => false,
            Some(found) => found == inode,
        }
    }

    /// Gives an inode that no name leads to.
    pub fn skip(&mut self) -> Result<(), AllocError>
        ensures { OnOk result (held_in self.new ≡ skipped (held_in self.old)) }
    {
        self.files.reserve(1)?;
        push_file(&mut self.files, Vec::new(self.alloc));
        Ok(())
    }

    /// Gives an inode these bytes, if it was given.
    pub fn replace(&mut self, inode: u64, bytes: &[u8]) -> Result<(), AllocError>
        ensures { OnOk result (held_in self.new ≡ replaced (held_in self.old) inode bytes.now) }
    {
        let copy = carried(self.alloc, bytes, false)?;
        if self.has(inode) {
            self.files[inode as usize] = copy;
        }
        Ok(())
    }

    /// Gives a file another name, whatever that led to.
    pub fn shift(&mut self, inode: u64, from: Name, to: Name) -> Result<(), AllocError>
        ensures { OnOk result (held_in self.new ≡ moved (held_in self.old) inode from to) }
    {
        let _ = self.names.remove(&from);
        self.names.insert(to, inode)?;
        Ok(())
    }

    /// Lets a name lead to an inode.
    pub fn point(&mut self, name: Name, inode: u64) -> Result<(), AllocError>
        ensures { OnOk result (held_in self.new ≡ pointed (held_in self.old) name inode) }
    {
        self.names.insert(name, inode)?;
        Ok(())
    }

    /// Has the names of another one.
    pub fn take_names(&mut self, other: &Table) -> Result<(), AllocError>
        ensures { OnOk result (held_in self.new ≡ named_as (held_in self.old) (held_in other.now).folder) }
    {
        self.names = other.names.clone()?;
        Ok(())
    }
}
