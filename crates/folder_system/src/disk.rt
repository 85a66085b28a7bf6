//! The calls of the disk: each makes its calls of the system, and counts and reports a fault.

ghost use Rattle.std.specs.Prelude.{◌≡◌, ◌≤◌, IsTrue, IsErr};
ghost use Rattle.disk_images.specs.Calls.{Rose, HasCause};
ghost use Rattle.folder_system.specs.View.{disk_view};

use crate::changing::{create_file, remove_file, rename_file, write_file};
use crate::fault::{fail, only_reads, refuse};
use crate::looking::{list, read_file, size_of};
use crate::pinning::{settle_names, sync_file};
use crate::{System, SystemDisk};
use disk_images::{Disk, Failed, Name, NameList, NamesError};
use std::alloc::Global;
use std::io::ErrorKind;

impl<S: System> Disk for SystemDisk<S> {
    ghost use Rattle.folder_system.specs.Laws.{true_disk};

    ghost told = { S.told };

    ghost view = { λ disk. disk_view (S.view disk.system) };

    ghost faults = { λ disk. disk.faults };

    ghost is_true = { λ disk told. true_disk (S.view disk.system) (S.is_true disk.system told) };

    fn names(&mut self, alloc: Global) -> Result<NameList, NamesError> {
        if !self.is_sound {
            let Failed = refuse(&mut self.faults);
            return Err(NamesError::Failed);
        }
        match list(&mut self.system, alloc) {
            Ok(names) => Ok(NameList::of(names)),
            Err(e) if e.kind() == ErrorKind::OutOfMemory => Err(NamesError::Memory),
            Err(e) => {
                self.is_sound = false;
                self.may_write = false;
                self.is_settled = false;
                let Failed = fail(&self.system, &mut self.faults, "list", None, &e);
                Err(NamesError::Failed)
            }
        }
    }

    fn size(&mut self, name: Name) -> Result<Option<u64>, Failed> {
        if !self.is_sound {
            return Err(refuse(&mut self.faults));
        }
        match size_of(&mut self.system, name) {
            Ok(size) => Ok(size),
            Err(e) => {
                self.is_sound = false;
                self.may_write = false;
                self.is_settled = false;
                Err(fail(&self.system, &mut self.faults, "size", Some(name), &e))
            }
        }
    }

    fn read(&mut self, name: Name, at: u64, into: &mut [u8]) -> Result<usize, Failed> {
        if !self.is_sound {
            return Err(refuse(&mut self.faults));
        }
        match read_file(&mut self.system, &mut self.files, name, at, into) {
            Ok(n) => Ok(n),
            Err(e) => {
                self.is_sound = false;
                self.may_write = false;
                self.is_settled = false;
                Err(fail(&self.system, &mut self.faults, "read", Some(name), &e))
            }
        }
    }

    fn create(&mut self, name: Name) -> Result<(), Failed> {
        if !self.may_write {
            let was_sound = self.is_sound;
            self.is_sound = false;
            self.is_settled = false;
            return Err(only_reads(
                &self.system,
                &mut self.faults,
                was_sound,
                "create",
                Some(name),
            ));
        }
        self.is_settled = false;
        match create_file(&mut self.system, &mut self.files, name) {
            Ok(()) => Ok(()),
            Err(e) => {
                self.is_sound = false;
                self.may_write = false;
                Err(fail(&self.system, &mut self.faults, "create", Some(name), &e))
            }
        }
    }

    fn write_at(&mut self, name: Name, at: u64, bytes: &[u8]) -> Result<(), Failed> {
        if !self.may_write {
            let was_sound = self.is_sound;
            self.is_sound = false;
            self.is_settled = false;
            return Err(only_reads(
                &self.system,
                &mut self.faults,
                was_sound,
                "write",
                Some(name),
            ));
        }
        match write_file(&mut self.system, &mut self.files, name, at, bytes) {
            Ok(()) => Ok(()),
            Err(e) => {
                self.is_sound = false;
                self.may_write = false;
                self.is_settled = false;
                Err(fail(&self.system, &mut self.faults, "write", Some(name), &e))
            }
        }
    }

    fn sync(&mut self, name: Name) -> Result<(), Failed> {
        if !self.may_write {
            let was_sound = self.is_sound;
            self.is_sound = false;
            self.is_settled = false;
            return Err(only_reads(
                &self.system,
                &mut self.faults,
                was_sound,
                "sync",
                Some(name),
            ));
        }
        match sync_file(&mut self.system, &mut self.files, name, self.is_settled) {
            Ok(()) => {
                self.is_settled = true;
                Ok(())
            }
            Err(e) => {
                self.is_sound = false;
                self.may_write = false;
                self.is_settled = false;
                Err(fail(&self.system, &mut self.faults, "sync", Some(name), &e))
            }
        }
    }

    fn rename(&mut self, from: Name, to: Name) -> Result<(), Failed> {
        if !self.may_write {
            let was_sound = self.is_sound;
            self.is_sound = false;
            self.is_settled = false;
            return Err(only_reads(
                &self.system,
                &mut self.faults,
                was_sound,
                "rename",
                Some(from),
            ));
        }
        self.is_settled = false;
        match rename_file(&mut self.system, &mut self.files, from, to) {
            Ok(()) => Ok(()),
            Err(e) => {
                self.is_sound = false;
                self.may_write = false;
                Err(fail(&self.system, &mut self.faults, "rename", Some(from), &e))
            }
        }
    }

    fn remove(&mut self, name: Name) -> Result<(), Failed> {
        if !self.may_write {
            let was_sound = self.is_sound;
            self.is_sound = false;
            self.is_settled = false;
            return Err(only_reads(
                &self.system,
                &mut self.faults,
                was_sound,
                "remove",
                Some(name),
            ));
        }
        match remove_file(&mut self.system, &mut self.files, name) {
            Ok(()) => Ok(()),
            Err(e) => {
                self.is_sound = false;
                self.may_write = false;
                self.is_settled = false;
                Err(fail(&self.system, &mut self.faults, "remove", Some(name), &e))
            }
        }
    }

    fn settle(&mut self) -> Result<(), Failed> {
        if !self.may_write {
            let was_sound = self.is_sound;
            self.is_sound = false;
            self.is_settled = false;
            return Err(only_reads(&self.system, &mut self.faults, was_sound, "sync", None));
        }
        match settle_names(&mut self.system) {
            Ok(()) => {
                self.is_settled = true;
                Ok(())
            }
            Err(e) => {
                self.is_sound = false;
                self.may_write = false;
                self.is_settled = false;
                Err(fail(&self.system, &mut self.faults, "sync", None, &e))
            }
        }
    }
}
