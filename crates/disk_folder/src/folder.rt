//! A folder in the working directory as a disk: how it is made, and how its faults are counted and reported.

ghost use Rattle.std.specs.Prelude.{◌≡◌, ◌≤◌};
ghost use Rattle.disk_images.specs.Calls.{Rose};

use crate::entries::FOLDER;
use crate::fault::Fault;
use crate::open_files::OpenFiles;
use crate::spelling::Spelled;
use disk_images::{Failed, Name};
use std::alloc::Global;
use std::fs::File;
use std::io;

/// What a program does with a store.
#[derive(Clone, Copy, PartialEq, Eq)]
pub enum Access {
    /// It reads, beside others that read.
    Reading,
    /// It reads and writes, and nobody else does either.
    Writing,
}

/// A folder in the working directory, as a disk that tells nothing: `hwal-store`, or one that is named. A folder that isn't
/// there reads as empty, and is made with its first file. Each error of the system, and each write that takes nothing, is a
/// fault, and is reported in one line on standard error. After a fault each call fails, and nothing more is asked of the
/// system: the store is to be opened again, by a new disk.
///
/// The first call that finds the folder locks it until the disk is dropped. Where another program's lock stands against
/// it, that call fails. A disk for writing makes sure of the folder then: each log, edits file and new store is copied,
/// synced and renamed into its own place, so that a later sync pins what reads give also where a sync of an earlier program
/// failed. It wants the room of the greatest of them.
#[derive(Drop)]
pub struct FolderDisk<'a, R> {
    pub(crate) rt: &'a R,
    pub(crate) alloc: Global,
    // its name
    pub(crate) folder: &'a str,
    pub(crate) access: Access,
    // the folder itself, with its lock
    pub(crate) held: Option<File>,
    // whether a call didn't find it
    pub(crate) was_absent: bool,
    pub(crate) open: OpenFiles,
    // the greatest length of a file that the process may write
    pub(crate) most: u64,
    // whether the folder's own name is durable
    pub(crate) is_placed: bool,
    // whether the names of the files in the folder are durable, whoever made them
    pub(crate) is_settled: bool,
    pub(crate) faults: u64,
}

impl<'a, R> FolderDisk<'a, R> {
    /// The folder `hwal-store`.
    pub fn new(rt: &'a R, alloc: Global, access: Access) -> Self {
        FolderDisk::named(rt, alloc, FOLDER, access)
    }

    /// The folder of this name, which has no `/`. It makes no call of the system.
    pub fn named(rt: &'a R, alloc: Global, folder: &'a str, access: Access) -> Self {
        FolderDisk {
            rt,
            alloc,
            folder,
            access,
            held: None,
            was_absent: false,
            open: OpenFiles::new(alloc),
            most: u64::MAX,
            is_placed: false,
            is_settled: false,
            faults: 0,
        }
    }

    /// Whether a call found no folder, which reads as an empty store. It may have been made since.
    pub fn was_absent(&self) -> bool {
        self.was_absent
    }

    /// How many faults were counted so far.
    pub fn faults(&self) -> u64
        ensures { result ≡ self.now.faults }
    {
        self.faults
    }
}

impl<R: Eprint> FolderDisk<'_, R> {
    /// Counts a fault, and says what failed: the call on this file or, without a name, on the folder.
    pub(crate) fn fail(&mut self, call: &str, name: Option<Name>, fault: &Fault) -> Failed
        ensures rose { Rose self.old.faults self.new.faults }
        ensures later { self.old.faults ≤ self.new.faults }
    {
        match fault {
            Fault::Call(cause) => self.report(call, name, cause),
            Fault::Other { call, name, cause } => self.report(call, *name, cause),
            // The first fault was reported.
            Fault::Refused => {}
        }
        self.faults = self.faults.saturating_add(1);
        Failed
    }

    /// Says it in one line. Where standard error takes nothing, nobody is told.
    fn report(&self, call: &str, name: Option<Name>, cause: &io::Error) {
        let folder = self.folder;
        let _ = match name {
            None => eprintln!(self.rt; "hwal: {call} {folder}: {cause}"),
            Some(name) => {
                // Where there is one folder, the file's name is enough.
                let (folder, slash) = if folder == FOLDER {
                    ("", "")
                } else {
                    (folder, "/")
                };
                let spelled = Spelled(name);
                eprintln!(self.rt; "hwal: {call} {folder}{slash}{spelled}: {cause}")
            }
        };
    }
}
