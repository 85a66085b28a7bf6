//! Calls that pin something: each ends with a new moment.

ghost use Rattle.std.specs.Prelude.{◌≡◌, ◌<◌, ◌≤◌, ◌+◌, ◌-◌, ◌++◌, ◌^◌, ℕ, List, Some, length, take, drop, min, IsTrue, IsErr, IfOk, OnOk};
ghost use Rattle.std.specs.FinMap.{keys, get};
ghost use Rattle.log_model.specs.Files.{content, size_of, Reads, IsAbsent, IsName};
ghost use Rattle.folder_system.specs.Calls as sys;
ghost use Rattle.disk_images.specs.Calls.{HasCause, Looks, Creates, Writes, Syncs, Renames, Removes, Settles};
ghost use Rattle.folder_system.specs.View.{disk_view, IsSure, IsPlain, IsGood, Keeps, AreNamesPinned, AreOpen};

use crate::System;
use crate::looking::handle;
use crate::open_files::{OpenFile, OpenFiles};
use disk_images::Name;
use std::alloc::Global;
use std::io;

/// Makes a file durable whose name is durable.
pub(crate) fn sync_bytes<S: System>(
    system: &mut S,
    files: &mut OpenFiles<S::Handle>,
    name: Name,
) -> io::Result<()>
    requires opened { IsTrue S.told → AreOpen S.inode (S.view system.old) files.old.files.items }
    requires sure { IsTrue S.told → IsSure (S.view system.old) }
    requires settled { IsTrue S.told → AreNamesPinned (S.view system.old) }
    ensures syncs { IsTrue S.told → Syncs name result (disk_view (S.view system.old)) (disk_view (S.view system.new)) }
    ensures pinned { IsTrue S.told → OnOk result (AreNamesPinned (S.view system.new)) }
    ensures keeps { IsTrue S.told → OnOk result (Keeps (S.view system.old) (S.view system.new)) }
    ensures kept { IsTrue S.told → OnOk result (AreOpen S.inode (S.view system.new) files.new.files.items) }
    ensures cause { HasCause (S.faults system.old) (S.faults system.new) (IsErr result) }
{
    let entry = match handle(system, files, name, false) {
        Ok(entry) => entry,
        Err(e) => return Err(e),
    };
    match system.sync(&entry.file) {
        Ok(()) => {}
        Err(e) => return Err(e),
    }
    match system.tick() {
        Ok(()) => {}
        Err(e) => return Err(e),
    }
    files.keep(entry);
    Ok(())
}

/// Makes a file durable, and all names.
pub(crate) fn sync_all<S: System>(
    system: &mut S,
    files: &mut OpenFiles<S::Handle>,
    name: Name,
) -> io::Result<()>
    requires opened { IsTrue S.told → AreOpen S.inode (S.view system.old) files.old.files.items }
    requires sure { IsTrue S.told → IsSure (S.view system.old) }
    ensures syncs { IsTrue S.told → Syncs name result (disk_view (S.view system.old)) (disk_view (S.view system.new)) }
    ensures pinned { IsTrue S.told → OnOk result (AreNamesPinned (S.view system.new)) }
    ensures keeps { IsTrue S.told → OnOk result (Keeps (S.view system.old) (S.view system.new)) }
    ensures kept { IsTrue S.told → OnOk result (AreOpen S.inode (S.view system.new) files.new.files.items) }
    ensures cause { HasCause (S.faults system.old) (S.faults system.new) (IsErr result) }
{
    let entry = match handle(system, files, name, false) {
        Ok(entry) => entry,
        Err(e) => return Err(e),
    };
    match system.sync(&entry.file) {
        Ok(()) => {}
        Err(e) => return Err(e),
    }
    match system.sync_folder() {
        Ok(()) => {}
        Err(e) => return Err(e),
    }
    match system.tick() {
        Ok(()) => {}
        Err(e) => return Err(e),
    }
    files.keep(entry);
    Ok(())
}

/// Makes a file durable, and all names where they may not be so.
pub(crate) fn sync_file<S: System>(
    system: &mut S,
    files: &mut OpenFiles<S::Handle>,
    name: Name,
    is_settled: bool,
) -> io::Result<()>
    requires opened { IsTrue S.told → AreOpen S.inode (S.view system.old) files.old.files.items }
    requires sure { IsTrue S.told → IsSure (S.view system.old) }
    requires settled { IsTrue S.told → IsTrue is_settled → AreNamesPinned (S.view system.old) }
    ensures syncs { IsTrue S.told → Syncs name result (disk_view (S.view system.old)) (disk_view (S.view system.new)) }
    ensures pinned { IsTrue S.told → OnOk result (AreNamesPinned (S.view system.new)) }
    ensures keeps { IsTrue S.told → OnOk result (Keeps (S.view system.old) (S.view system.new)) }
    ensures kept { IsTrue S.told → OnOk result (AreOpen S.inode (S.view system.new) files.new.files.items) }
    ensures cause { HasCause (S.faults system.old) (S.faults system.new) (IsErr result) }
{
    if is_settled {
        sync_bytes(system, files, name)
    } else {
        sync_all(system, files, name)
    }
}

/// Makes all names durable.
pub(crate) fn settle_names<S: System>(system: &mut S) -> io::Result<()>
    requires { IsTrue S.told → IsSure (S.view system.old) }
    ensures settles { IsTrue S.told → Settles result (disk_view (S.view system.old)) (disk_view (S.view system.new)) }
    ensures pinned { IsTrue S.told → OnOk result (AreNamesPinned (S.view system.new)) }
    ensures keeps { IsTrue S.told → OnOk result (Keeps (S.view system.old) (S.view system.new)) }
    ensures stays { IsTrue S.told → (S.view system.new).folder ≡ (S.view system.old).folder }
    ensures cause { HasCause (S.faults system.old) (S.faults system.new) (IsErr result) }
{
    match system.sync_folder() {
        Ok(()) => {}
        Err(e) => return Err(e),
    }
    match system.tick() {
        Ok(()) => {}
        Err(e) => return Err(e),
    }
    Ok(())
}
