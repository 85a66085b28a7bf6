//! Calls that change something: each begins a new moment.

ghost use Rattle.std.specs.Prelude.{◌≡◌, ◌<◌, ◌≤◌, ◌+◌, ◌-◌, ◌++◌, ◌^◌, ℕ, List, Some, length, take, drop, min, IsTrue, IsErr, IfOk, OnOk};
ghost use Rattle.std.specs.FinMap.{keys, get};
ghost use Rattle.log_model.specs.Files.{content, size_of, Reads, IsAbsent, IsName};
ghost use Rattle.folder_system.specs.Calls as sys;
ghost use Rattle.disk_images.specs.Calls.{HasCause, Looks, Creates, Writes, Syncs, Renames, Removes, Settles};
ghost use Rattle.folder_system.specs.View.{disk_view, IsSure, IsPlain, IsGood, Keeps, AreNamesPinned, AreOpen};

use crate::System;
use crate::looking::handle;
use crate::open_files::{OpenFile, OpenFiles};
use disk_images::Name;
use std::alloc::Global;
use std::io;

/// Makes an empty file.
pub(crate) fn create_file<S: System>(
    system: &mut S,
    files: &mut OpenFiles<S::Handle>,
    name: Name,
) -> io::Result<()>
    requires opened { IsTrue S.told → AreOpen S.inode (S.view system.old) files.old.files.items }
    requires sure { IsTrue S.told → IsSure (S.view system.old) }
    requires absent { IsTrue S.told → IsAbsent (disk_view (S.view system.old)).files name × (¬ (disk_view (S.view system.old)).gone name) }
    requires named { IsName name }
    ensures creates { IsTrue S.told → Creates name result (disk_view (S.view system.old)) (disk_view (S.view system.new)) }
    ensures good { IsTrue S.told → OnOk result (IsGood (S.view system.old) → IsGood (S.view system.new)) }
    ensures kept { IsTrue S.told → OnOk result (AreOpen S.inode (S.view system.new) files.new.files.items) }
    ensures cause { HasCause (S.faults system.old) (S.faults system.new) (IsErr result) }
{
    match system.tick() {
        Ok(()) => {}
        Err(e) => return Err(e),
    }
    match system.create(name) {
        Ok(file) => {
            files.keep(OpenFile {
                name,
                file,
                is_writable: true,
            });
            Ok(())
        }
        Err(e) => Err(e),
    }
}

/// Writes bytes.
pub(crate) fn write_file<S: System>(
    system: &mut S,
    files: &mut OpenFiles<S::Handle>,
    name: Name,
    at: u64,
    bytes: &[u8],
) -> io::Result<()>
    requires opened { IsTrue S.told → AreOpen S.inode (S.view system.old) files.old.files.items }
    requires sure { IsTrue S.told → IsSure (S.view system.old) }
    requires plain { IsTrue S.told → IsPlain (S.view system.old) }
    requires there { IsTrue S.told → ∥ ((c : List ℕ) × Reads (disk_view (S.view system.old)).files name c × (at ≤ length c)) ∥₁ }
    ensures fits { OnOk result (at + length bytes.now < 2 ^ 63) }
    ensures writes { IsTrue S.told → Writes name at bytes.now result (disk_view (S.view system.old)) (disk_view (S.view system.new)) }
    ensures keeps { IsTrue S.told → OnOk result (Keeps (S.view system.old) (S.view system.new)) }
    ensures kept { IsTrue S.told → OnOk result (AreOpen S.inode (S.view system.new) files.new.files.items) }
    ensures cause { HasCause (S.faults system.old) (S.faults system.new) (IsErr result) }
{
    match system.tick() {
        Ok(()) => {}
        Err(e) => return Err(e),
    }
    let entry = match handle(system, files, name, true) {
        Ok(entry) => entry,
        Err(e) => return Err(e),
    };
    let given = system.write(&entry.file, at, bytes);
    files.keep(entry);
    given
}

/// Gives a file another name.
pub(crate) fn rename_file<S: System>(
    system: &mut S,
    files: &mut OpenFiles<S::Handle>,
    from: Name,
    to: Name,
) -> io::Result<()>
    requires opened { IsTrue S.told → AreOpen S.inode (S.view system.old) files.old.files.items }
    requires sure { IsTrue S.told → IsSure (S.view system.old) }
    requires plain { IsTrue S.told → IsPlain (S.view system.old) }
    requires from { IsTrue S.told → ∥ ((c : List ℕ) × Reads (disk_view (S.view system.old)).files from c) ∥₁ }
    requires to { IsTrue S.told → IsAbsent (disk_view (S.view system.old)).files to × (¬ (disk_view (S.view system.old)).gone to) }
    requires named { IsName to }
    ensures renames { IsTrue S.told → Renames from to result (disk_view (S.view system.old)) (disk_view (S.view system.new)) }
    ensures good { IsTrue S.told → OnOk result (IsGood (S.view system.old) → IsGood (S.view system.new)) }
    ensures kept { IsTrue S.told → OnOk result (AreOpen S.inode (S.view system.new) files.new.files.items) }
    ensures cause { HasCause (S.faults system.old) (S.faults system.new) (IsErr result) }
{
    match system.tick() {
        Ok(()) => {}
        Err(e) => return Err(e),
    }
    files.close(from);
    system.rename(from, to)
}

/// Removes a file.
pub(crate) fn remove_file<S: System>(
    system: &mut S,
    files: &mut OpenFiles<S::Handle>,
    name: Name,
) -> io::Result<()>
    requires opened { IsTrue S.told → AreOpen S.inode (S.view system.old) files.old.files.items }
    requires sure { IsTrue S.told → IsSure (S.view system.old) }
    requires plain { IsTrue S.told → IsPlain (S.view system.old) }
    ensures removes { IsTrue S.told → Removes name result (disk_view (S.view system.old)) (disk_view (S.view system.new)) }
    ensures keeps { IsTrue S.told → OnOk result (Keeps (S.view system.old) (S.view system.new)) }
    ensures kept { IsTrue S.told → OnOk result (AreOpen S.inode (S.view system.new) files.new.files.items) }
    ensures cause { HasCause (S.faults system.old) (S.faults system.new) (IsErr result) }
{
    match system.tick() {
        Ok(()) => {}
        Err(e) => return Err(e),
    }
    files.close(name);
    system.unlink(name)
}
