//! What a former program left in the folder.

ghost use Rattle.log_model.specs.Files.{IsName};

use disk_images::{Name, NameKind};
use folder_system::System;
use std::alloc::Global;
use system_fakes::{Failing, FakeSystem, Fate};

/// A file of the folder.
#[derive(Clone, Copy)]
pub(crate) enum File {
    Log,
    Edits,
    Store,
}

pub(crate) const FILES: &[File] = &[File::Log, File::Edits, File::Store];

/// How many calls `make_all` makes.
pub(crate) const CALLS: u64 = 10;

impl File {
    pub(crate) fn name(self) -> Name
        ensures { IsName result }
    {
        let (kind, region) = match self {
            File::Log => (NameKind::Log, 0),
            File::Edits => (NameKind::Edits, 1),
            File::Store => (NameKind::Store, 1),
        };
        Name {
            kind,
            region,
            number: 2,
        }
    }

    fn bytes(self) -> &'static [u8] {
        match self {
            File::Log => b"log",
            File::Edits => b"edits",
            File::Store => b"a store",
        }
    }
}

/// No call fails.
pub(crate) const NONE: Failing = Failing {
    from: 0,
    count: 0,
    fate: Fate::Done,
};

/// Makes a file, writes it and syncs it. Tells whether the sync has answered ok.
fn is_made(system: &mut FakeSystem, file: File) -> bool {
    let Ok(made) = system.create(file.name()) else {
        return false;
    };
    system.write(&made, 0, file.bytes()).is_ok() && system.sync(&made).is_ok()
}

/// A folder with each file, durable.
pub(crate) fn made_all(alloc: Global, failing: Failing) -> Option<FakeSystem> {
    let mut system = FakeSystem::failing(alloc, failing);
    for file in FILES {
        if !is_made(&mut system, *file) {
            return None;
        }
    }
    if system.sync_folder().is_err() {
        return None;
    }
    Some(system)
}

/// A folder with a log, whose name is durable. Its only fsync has failed.
pub(crate) fn made_in_doubt(alloc: Global, fate: Fate) -> Option<FakeSystem> {
    let failing = Failing {
        from: 3,
        count: 1,
        fate,
    };
    let mut system = FakeSystem::failing(alloc, failing);
    if is_made(&mut system, File::Log) || system.sync_folder().is_err() {
        return None;
    }
    Some(system)
}

/// Whether the file reads as it was written.
pub(crate) fn reads(system: &mut FakeSystem, file: File) -> bool {
    let mut piece = [0; 16];
    let Ok(opened) = system.open(file.name(), false) else {
        return false;
    };
    match system.read(&opened, 0, &mut piece) {
        Ok(count) => piece.get(..count) == Some(file.bytes()),
        Err(_) => false,
    }
}
