//! How the folder is opened, locked and made, and its files opened.

ghost use Rattle.std.specs.Prelude.{◌≡◌};

use crate::entries::{AROUND, names_in, open_folder, path_of};
use crate::fault::Fault;
use crate::folder::{Access, FolderDisk};
use crate::limits::longest_file;
use crate::mending::mend_folder;
use disk_images::Name;
use std::fs::{self, File, OpenOptions, TryLockError};
use std::io;
use std::rt::Files;

impl<R: Files<File = File> + AllocGlobal + Clone + Drop> FolderDisk<'_, R> {
    /// Comes before each call of the system on a file or the folder. After a fault nothing is called: an fsync after one that
    /// failed may answer Ok though it wrote nothing. Else the folder is opened, locked and made sure of, if it is there and
    /// that wasn't done yet. A disk for reading refuses a call that writes.
    pub(crate) fn hold(&mut self, wanted: Access) -> Result<(), Fault>
        ensures faults { self.new.faults ≡ self.old.faults }
    {
        if self.faults > 0 {
            return Err(Fault::Refused);
        }
        if wanted == Access::Writing && self.access == Access::Reading {
            let why = "the store is open for reading";
            return Err(Fault::Call(io::Error::new(io::ErrorKind::PermissionDenied, why)));
        }
        if self.held.is_some() {
            return Ok(());
        }
        match open_folder(self.rt, self.alloc, self.folder)? {
            Some(folder) => self.take_folder(folder),
            None => {
                self.was_absent = true;
                Ok(())
            }
        }
    }

    /// Locks it, and makes sure of it before anything in it is believed.
    fn take_folder(&mut self, folder: File) -> Result<(), Fault>
        ensures faults { self.new.faults ≡ self.old.faults }
    {
        lock(&folder, self.access)?;
        if self.access == Access::Writing {
            self.most = longest_file(self.rt, self.alloc)?;
            mend_folder(self.rt, self.alloc, self.folder, &folder, self.most)?;
        }
        self.held = Some(folder);
        Ok(())
    }

    /// Makes the folder where it wasn't there. No other program has begun the store since.
    pub(crate) fn make_folder(&mut self) -> Result<(), Fault>
        ensures faults { self.new.faults ≡ self.old.faults }
    {
        if self.held.is_some() {
            return Ok(());
        }
        fs::create_dir(self.rt, self.folder)?;
        self.hold(Access::Reading)?;
        let names = names_in(self.rt, self.alloc, self.folder)?;
        if names.is_empty() {
            Ok(())
        } else {
            Err(Fault::Call(in_use()))
        }
    }

    /// Pins the folder's own name, whoever made it.
    pub(crate) fn place_folder(&mut self) -> io::Result<()>
        ensures faults { self.new.faults ≡ self.old.faults }
    {
        if !self.is_placed {
            let around = File::open(self.rt, AROUND)?;
            around.sync_all()?;
            self.is_placed = true;
        }
        Ok(())
    }

    /// Opens the file of this name, for writing where that is asked for. It is the one used last then.
    pub(crate) fn open_file(&mut self, name: Name, for_writing: bool) -> Result<(), Fault>
        ensures faults { self.new.faults ≡ self.old.faults }
    {
        if self.open.find(name, for_writing) {
            return Ok(());
        }
        let file = self.opened(name, for_writing, false)?;
        self.open.keep(name, file, for_writing)?;
        Ok(())
    }

    /// A handle of the file of this name, which is made where it is to be new.
    pub(crate) fn opened(&self, name: Name, for_writing: bool, is_new: bool) -> io::Result<File> {
        let path = path_of(self.alloc, self.folder, name)?;
        OpenOptions::new()
            .read(true)
            .write(for_writing)
            .create_new(is_new)
            .open(self.rt, path.as_str())
    }
}

/// Locks the folder, without waiting: for reading beside others that read, for writing alone.
fn lock(folder: &File, access: Access) -> io::Result<()> {
    let locked = match access {
        Access::Reading => folder.try_lock_shared(),
        Access::Writing => folder.try_lock(),
    };
    match locked {
        Ok(()) => Ok(()),
        Err(TryLockError::WouldBlock) => Err(in_use()),
        Err(TryLockError::Error(e)) => Err(e),
    }
}

fn in_use() -> io::Error {
    io::Error::new(
        io::ErrorKind::ResourceBusy,
        "another program uses the store",
    )
}
