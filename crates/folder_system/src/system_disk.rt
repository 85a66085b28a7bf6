//! A folder of files as a disk: what it keeps between calls, and how it begins.

ghost use Rattle.std.specs.Prelude.{◌≡◌, ◌⊎◌, IsTrue};
ghost use Rattle.std.proofs.Props.{props};
ghost use Rattle.disk_images.specs.Calls.{Rose};
ghost use Rattle.folder_system.specs.View.{IsSure, IsPlain, HasEachName, HasNoOtherName, AreOpen, IsGood, AreNamesPinned, Opens};
ghost use Rattle.folder_system.specs.Mending.{OpensSafely};

use crate::System;
use crate::open_files::OpenFiles;
use crate::opening::{Fault, mend};
use std::alloc::Global;

/// A folder of files as a disk. After a fault it makes no call of the system and refuses each of its own: the store is to be opened
/// again, by a new disk.
#[derive(Drop)]
pub struct SystemDisk<S: System> {
    pub(crate) system: S,
    pub(crate) files: OpenFiles<S::Handle>,
    // no call has failed
    pub(crate) is_sound: bool,
    // and it may change files
    pub(crate) may_write: bool,
    // the names of the files are durable
    pub(crate) is_settled: bool,
    pub(crate) faults: u64,
    ghost sound: { IsTrue may_write → IsTrue is_sound } by { Prim.hlevel props },
    ghost sure: { IsTrue S.told → IsTrue is_sound → IsSure (S.view system) } by { Prim.hlevel props },
    ghost plain: { IsTrue S.told → IsTrue may_write → IsPlain (S.view system) } by { Prim.hlevel props },
    ghost there: { IsTrue S.told → IsTrue is_settled → HasEachName (S.view system) } by { Prim.hlevel props },
    ghost alone: { IsTrue S.told → IsTrue is_settled → HasNoOtherName (S.view system) } by { Prim.hlevel props },
    ghost opened: { IsTrue S.told → IsTrue is_sound → AreOpen S.inode (S.view system) files.files.items } by { Prim.hlevel props },
}

impl<S: System + Drop> SystemDisk<S> {
    /// A disk that writes, on a folder as a former program left it. It makes sure of each file first, and of the names. Where a
    /// call fails the disk has counted a fault, so that each of its own fails.
    pub fn open(system: S, alloc: Global) -> SystemDisk<S>
        ensures opens { IsTrue S.told → result.faults ≡ 0 → Opens (S.view system) (S.view result.system) }
        ensures safely { IsTrue S.told → result.faults ≡ 0 → OpensSafely (S.view system) (S.view result.system) }
        ensures cause { (result.faults ≡ 0) ⊎ Rose (S.faults system) (S.faults result.system) }
    {
        let mut system = system;
        match mend(&mut system, alloc) {
            Ok(()) => SystemDisk::made_sure(system, alloc),
            Err(Fault { call, name, cause }) => {
                system.report(call, name, &cause);
                SystemDisk::broken(system, alloc)
            }
        }
    }

    fn made_sure(system: S, alloc: Global) -> SystemDisk<S>
        requires good { IsTrue S.told → IsGood (S.view system) }
        requires pinned { IsTrue S.told → AreNamesPinned (S.view system) }
        ensures same { result.system ≡ system }
        ensures none { result.faults ≡ 0 }
    {
        SystemDisk {
            system,
            files: OpenFiles::new(alloc),
            is_sound: true,
            may_write: true,
            is_settled: true,
            faults: 0,
        }
    }

    fn broken(system: S, alloc: Global) -> SystemDisk<S>
        ensures same { result.system ≡ system }
        ensures one { result.faults ≡ 1 }
    {
        SystemDisk {
            system,
            files: OpenFiles::new(alloc),
            is_sound: false,
            may_write: false,
            is_settled: false,
            faults: 1,
        }
    }

    /// A disk that only reads. It makes sure of nothing: that no file is doubtful is a premise.
    pub fn reading(system: S, alloc: Global) -> SystemDisk<S>
        requires sure { IsTrue S.told → IsSure (S.view system) }
        ensures same { result.system ≡ system }
        ensures none { result.faults ≡ 0 }
    {
        SystemDisk {
            system,
            files: OpenFiles::new(alloc),
            is_sound: true,
            may_write: false,
            is_settled: false,
            faults: 0,
        }
    }
}

impl<S: System> SystemDisk<S> {
    /// The system below.
    pub fn system(&self) -> &S
        ensures { result.now ≡ self.now.system }
    {
        &self.system
    }

    /// The system below, for the disk that is opened next.
    pub fn into_system(self) -> S
        ensures { result ≡ self.system }
    {
        let SystemDisk {
            system,
            files: _,
            is_sound: _,
            may_write: _,
            is_settled: _,
            faults: _,
        } = self;
        system
    }

    /// How many faults were counted so far.
    pub fn faults(&self) -> u64
        ensures { result ≡ self.now.faults }
    {
        self.faults
    }
}
