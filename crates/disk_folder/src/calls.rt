//! What each call of the disk does on the folder, a call or two of the system. Faults are counted by the caller.

ghost use Rattle.std.specs.Prelude.{◌≡◌, ◌≤◌, ◌<◌, ◌+◌, ◌^◌, length, IfOk, OnOk};

use crate::entries::{is_taken, length_of, names_in, path_of};
use crate::fault::Fault;
use crate::folder::{Access, FolderDisk};
use crate::limits::too_long;
use disk_images::Name;
use std::alloc::Global;
use std::fs::{self, File};
use std::io::{self, ErrorKind};
use std::os::unix::fs::FileExt;
use std::rt::Files;

/// A file ends below this many bytes.
const LIMIT: u64 = 1 << 63;

impl<R: Files<File = File> + AllocGlobal + Clone + Drop> FolderDisk<'_, R> {
    pub(crate) fn list_files(&mut self) -> Result<Vec<Name>, Fault>
        ensures faults { self.new.faults ≡ self.old.faults }
    {
        self.hold(Access::Reading)?;
        names_in(self.rt, self.alloc, self.folder)
    }

    pub(crate) fn size_of(&mut self, name: Name) -> Result<Option<u64>, Fault>
        ensures faults { self.new.faults ≡ self.old.faults }
    {
        self.hold(Access::Reading)?;
        let length = length_of(self.rt, self.alloc, self.folder, name)?;
        Ok(length)
    }

    pub(crate) fn read_file(&mut self, name: Name, at: u64, into: &mut [u8]) -> Result<usize, Fault>
        ensures within { IfOk result (λ n. n ≤ length into.old) }
        ensures faults { self.new.faults ≡ self.old.faults }
    {
        self.hold(Access::Reading)?;
        self.open_file(name, false)?;
        let filled = read_from(self.open.latest()?, at, into)?;
        Ok(filled)
    }

    pub(crate) fn create_file(&mut self, name: Name) -> Result<(), Fault>
        ensures faults { self.new.faults ≡ self.old.faults }
    {
        self.hold(Access::Writing)?;
        self.make_folder()?;
        self.place_folder()?;
        self.is_settled = false;
        let file = self.opened(name, true, true)?;
        self.open.keep(name, file, true)?;
        Ok(())
    }

    /// A write past the process's limit on the length of files, which would end it by a signal, is an error too.
    pub(crate) fn write_file(&mut self, name: Name, at: u64, bytes: &[u8]) -> Result<(), Fault>
        ensures fits { OnOk result (at + length bytes.now < 2 ^ 63) }
        ensures faults { self.new.faults ≡ self.old.faults }
    {
        self.hold(Access::Writing)?;
        let count = bytes.len() as u64;
        if at >= LIMIT || count >= LIMIT - at || count > self.most.saturating_sub(at) {
            return Err(Fault::Call(too_long()));
        }
        self.open_file(name, true)?;
        self.open.latest()?.write_all_at(bytes, at)?;
        Ok(())
    }

    /// Pins what the file holds and, where any name in the folder may not be durable, all names.
    pub(crate) fn sync_file(&mut self, name: Name) -> Result<(), Fault>
        ensures faults { self.new.faults ≡ self.old.faults }
    {
        self.hold(Access::Writing)?;
        self.open_file(name, false)?;
        self.open.latest()?.sync_all()?;
        if self.is_settled {
            return Ok(());
        }
        self.sync_folder()
    }

    /// The new name is free: `rename` would put the file in the place of a pipe, a socket or a link that leads nowhere, which
    /// are no files of a store and are left alone. Nobody else writes into the folder, so it stays one change, done or not.
    pub(crate) fn rename_file(&mut self, from: Name, to: Name) -> Result<(), Fault>
        ensures faults { self.new.faults ≡ self.old.faults }
    {
        self.hold(Access::Writing)?;
        let old = path_of(self.alloc, self.folder, from)?;
        let new = path_of(self.alloc, self.folder, to)?;
        if is_taken(self.rt, new.as_str())? {
            let why = "something has the name that it gets";
            return Err(Fault::Call(io::Error::new(ErrorKind::AlreadyExists, why)));
        }
        self.open.close(from);
        self.is_settled = false;
        fs::rename(self.rt, old.as_str(), new.as_str())?;
        Ok(())
    }

    pub(crate) fn remove_file(&mut self, name: Name) -> Result<(), Fault>
        ensures faults { self.new.faults ≡ self.old.faults }
    {
        self.hold(Access::Writing)?;
        let path = path_of(self.alloc, self.folder, name)?;
        self.open.close(name);
        fs::remove_file(self.rt, path.as_str())?;
        Ok(())
    }

    /// Pins the names of all files, and the folder's own. A folder that isn't there has none.
    pub(crate) fn sync_folder(&mut self) -> Result<(), Fault>
        ensures faults { self.new.faults ≡ self.old.faults }
    {
        self.hold(Access::Writing)?;
        if let Some(folder) = &self.held {
            folder.sync_all()?;
            self.place_folder()?;
            self.is_settled = true;
        }
        Ok(())
    }
}

/// Reads from this offset on until the slice is full or the file ends, and again where a signal came between.
pub(crate) fn read_from(file: &File, at: u64, into: &mut [u8]) -> io::Result<usize>
    ensures within { IfOk result (λ n. n ≤ length into.old) }
{
    let mut filled = 0;
    for _ in 0..u64::MAX {
        if filled >= into.len() {
            return Ok(filled);
        }
        let place = at.saturating_add(filled as u64);
        match file.read_at(&mut into[filled..], place) {
            Ok(0) => return Ok(filled),
            Ok(n) => filled += n,
            Err(e) if e.kind() == io::ErrorKind::Interrupted => {}
            Err(e) => return Err(e),
        }
    }
    Err(io::Error::from(io::ErrorKind::Interrupted))
}
