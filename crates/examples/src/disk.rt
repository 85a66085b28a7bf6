//! A disk of one's own: files in vectors, each with room for so many bytes.
//!
//! `Disk` has nine calls, and each has clauses. Most of them begin with `IsTrue told`: they speak of a disk that *tells* what
//! it holds. This one doesn't (`told = { false }`), as no real folder can. So nobody has to prove what its files hold, and who
//! uses it can conclude nothing from what is promised of crashes. What is left has to be met by any disk:
//!
//! - `cause`: a call that answers `Failed` has raised the count of faults, and the count never falls.
//! - `within`: a read gives no more bytes than its slice has.
//! - `fits`: a write that ends past 2^63-1 fails.
//!
//! `disk_fakes::SafeDisk` is a disk in memory that tells, and meets all clauses.

ghost use Rattle.std.specs.Prelude.{◌≡◌, ◌≤◌, ◌<◌, ◌+◌, ◌^◌, false, length, IsTrue};
ghost use Rattle.disk_images.specs.Calls.{Rose};

use disk_images::{Disk, Failed, Name, NameList, NamesError};
use std::alloc::Global;
use std::collections::BTreeMap;

/// Files in memory, each of at most `room` bytes.
#[derive(Drop)]
pub struct VecDisk {
    alloc: Global,
    files: BTreeMap<Name, Vec<u8>>,
    room: u32,
    faults: u64,
}

impl VecDisk {
    pub fn new(alloc: Global, room: u32) -> VecDisk {
        VecDisk {
            alloc,
            files: BTreeMap::new(alloc),
            room,
            faults: 0,
        }
    }

    /// Counts a fault. A count at the end of its type stays there, as `Rose` allows.
    fn fail(&mut self) -> Failed
        ensures rose { Rose self.old.faults self.new.faults }
        ensures later { self.old.faults ≤ self.new.faults }
    {
        self.faults = self.faults.saturating_add(1);
        Failed
    }

    /// Writes into a file. False where it isn't there, the room is spent, or memory is.
    fn write_into(&mut self, name: Name, at: u64, bytes: &[u8]) -> bool
        ensures fits { IsTrue result → at + length bytes.now < 2 ^ 63 }
        ensures faults { self.new.faults ≡ self.old.faults }
    {
        match self.files.get_mut(&name) {
            Some(file) => overwrite(file, self.room, at, bytes),
            None => false,
        }
    }
}

/// Writes over the bytes from `at` on, and past the end. False where that passes the room, or memory is spent.
fn overwrite(file: &mut Vec<u8>, room: u32, at: u64, bytes: &[u8]) -> bool
    ensures fits { IsTrue result → at + length bytes.now < 2 ^ 63 }
{
    let room = room as u64;
    if at > room || bytes.len() as u64 > room - at {
        return false;
    }
    let at = at as usize;
    let end = at + bytes.len();
    if file.len() < end && file.resize(end, 0).is_err() {
        return false;
    }
    file[at..end].copy_from_slice(bytes);
    true
}

impl Disk for VecDisk {
    ghost use Rattle.file_base.specs.Untold.{no_view, untold};

    ghost told = { false };

    ghost view = { λ _. no_view };

    ghost faults = { λ disk. disk.faults };

    ghost is_true = { λ _ told. untold told };

    fn names(&mut self, alloc: Global) -> Result<NameList, NamesError> {
        match self.files.keys().copied().collect::<Vec<Name>>(alloc) {
            Ok(names) => Ok(NameList::of(names)),
            Err(_) => Err(NamesError::Memory),
        }
    }

    fn size(&mut self, name: Name) -> Result<Option<u64>, Failed> {
        Ok(self.files.get(&name).map(|file| file.len() as u64))
    }

    fn read(&mut self, name: Name, at: u64, into: &mut [u8]) -> Result<usize, Failed> {
        let Some(file) = self.files.get(&name) else {
            return Err(self.fail());
        };
        let at = (at as usize).min(file.len());
        let count = into.len().min(file.len() - at);
        into[..count].copy_from_slice(&file[at..at + count]);
        Ok(count)
    }

    fn create(&mut self, name: Name) -> Result<(), Failed> {
        match self.files.insert(name, Vec::new(self.alloc)) {
            Ok(_) => Ok(()),
            Err(_) => Err(self.fail()),
        }
    }

    fn write_at(&mut self, name: Name, at: u64, bytes: &[u8]) -> Result<(), Failed> {
        if self.write_into(name, at, bytes) {
            Ok(())
        } else {
            Err(self.fail())
        }
    }

    /// What is written is all that there is: nothing is lost but with the process. A real disk waits here until the file and
    /// its name are durable.
    fn sync(&mut self, _name: Name) -> Result<(), Failed> {
        Ok(())
    }

    fn rename(&mut self, from: Name, to: Name) -> Result<(), Failed> {
        let Some(file) = self.files.remove(&from) else {
            return Err(self.fail());
        };
        match self.files.insert(to, file) {
            Ok(_) => Ok(()),
            Err(_) => Err(self.fail()),
        }
    }

    fn remove(&mut self, name: Name) -> Result<(), Failed> {
        match self.files.remove(&name) {
            Some(_) => Ok(()),
            None => Err(self.fail()),
        }
    }

    /// The same of names: creates, renames and removals.
    fn settle(&mut self) -> Result<(), Failed> {
        Ok(())
    }
}
