//! The folder as a disk: each failure is counted once, and told with its cause.

ghost use Rattle.std.specs.Prelude.{◌≡◌, ◌≤◌, length, min, false, Ok, OnOk, IfOk, IsErr};
ghost use Rattle.disk_images.specs.Calls.{Rose, HasCause};

use crate::fault::Fault;
use crate::folder::FolderDisk;
use disk_images::{Disk, Failed, Name, NameList, NamesError};
use std::alloc::Global;
use std::fs::File;
use std::rt::Files;

impl<R: Eprint> FolderDisk<'_, R> {
    /// Hands on what a call on a file gave. An error is a fault.
    fn answer<T: Copy>(
        &mut self,
        call: &str,
        name: Name,
        given: Result<T, Fault>,
    ) -> Result<T, Failed>
        ensures same { IfOk result (λ value. given ≡ Ok value) }
        ensures cause { HasCause self.old.faults self.new.faults (IsErr result) }
    {
        match given {
            Ok(value) => Ok(value),
            Err(fault) => Err(self.fail(call, Some(name), &fault)),
        }
    }
}

impl<R: Files<File = File> + Eprint + AllocGlobal + Clone + Drop> Disk for FolderDisk<'_, R> {
    ghost use Rattle.disk_folder.specs.Untold.{no_view, untold};

    ghost told = { false };

    ghost view = { λ _. no_view };

    ghost faults = { λ disk. disk.faults };

    ghost is_true = { λ _ told. untold told };

    fn names(&mut self, _alloc: Global) -> Result<NameList, NamesError> {
        match self.list_files() {
            Ok(names) => Ok(NameList::of(names)),
            Err(fault) if fault.is_memory() => Err(NamesError::Memory),
            Err(fault) => {
                let _ = self.fail("list", None, &fault);
                Err(NamesError::Failed)
            }
        }
    }

    fn size(&mut self, name: Name) -> Result<Option<u64>, Failed> {
        let given = self.size_of(name);
        self.answer("size", name, given)
    }

    fn read(&mut self, name: Name, at: u64, into: &mut [u8]) -> Result<usize, Failed> {
        let given = self.read_file(name, at, into);
        self.answer("read", name, given)
    }

    fn create(&mut self, name: Name) -> Result<(), Failed> {
        let given = self.create_file(name);
        self.answer("create", name, given)
    }

    fn write_at(&mut self, name: Name, at: u64, bytes: &[u8]) -> Result<(), Failed> {
        let given = self.write_file(name, at, bytes);
        self.answer("write", name, given)
    }

    fn sync(&mut self, name: Name) -> Result<(), Failed> {
        let given = self.sync_file(name);
        self.answer("sync", name, given)
    }

    fn rename(&mut self, from: Name, to: Name) -> Result<(), Failed> {
        let given = self.rename_file(from, to);
        self.answer("rename", from, given)
    }

    fn remove(&mut self, name: Name) -> Result<(), Failed> {
        let given = self.remove_file(name);
        self.answer("remove", name, given)
    }

    fn settle(&mut self) -> Result<(), Failed> {
        match self.sync_folder() {
            Ok(()) => Ok(()),
            Err(fault) => Err(self.fail("sync", None, &fault)),
        }
    }
}
