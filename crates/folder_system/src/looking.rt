//! Calls that change nothing, and lie within the present moment.

ghost use Rattle.std.specs.Prelude.{◌≡◌, ◌<◌, ◌≤◌, ◌+◌, ◌-◌, ◌++◌, ◌^◌, ℕ, List, Some, length, take, drop, min, IsTrue, IsErr, IfOk, OnOk};
ghost use Rattle.std.specs.FinMap.{keys, get};
ghost use Rattle.log_model.specs.Files.{content, size_of, Reads, IsAbsent, IsName};
ghost use Rattle.folder_system.specs.Calls as sys;
ghost use Rattle.disk_images.specs.Calls.{HasCause, Looks, Creates, Writes, Syncs, Renames, Removes, Settles};
ghost use Rattle.folder_system.specs.View.{disk_view, IsSure, IsPlain, IsGood, Keeps, AreNamesPinned, AreOpen};

use crate::System;
use crate::open_files::{OpenFile, OpenFiles};
use disk_images::Name;
use std::alloc::Global;
use std::io;

/// The file of this name, open for writing where that is asked for. It is taken out of the files that are open.
pub(crate) fn handle<S: System>(
    system: &mut S,
    files: &mut OpenFiles<S::Handle>,
    name: Name,
    for_writing: bool,
) -> io::Result<OpenFile<S::Handle>>
    requires { IsTrue S.told → AreOpen S.inode (S.view system.old) files.old.files.items }
    ensures named { IfOk result (λ entry. entry.name ≡ name) }
    ensures leads { IsTrue S.told → IfOk result (λ entry. get (S.view system.old).folder name ≡ Some (S.inode entry.file)) }
    ensures looks { IsTrue S.told → sys.Looks (S.view system.old) (S.view system.new) }
    ensures kept { IsTrue S.told → AreOpen S.inode (S.view system.new) files.new.files.items }
    ensures cause { HasCause (S.faults system.old) (S.faults system.new) (IsErr result) }
{
    if let Some(entry) = files.take(name, for_writing) {
        return Ok(entry);
    }
    files.close(name);
    match system.open(name, for_writing) {
        Ok(file) => Ok(OpenFile {
            name,
            file,
            is_writable: for_writing,
        }),
        Err(e) => Err(e),
    }
}

/// The names of all files.
pub(crate) fn list<S: System>(system: &mut S, alloc: Global) -> io::Result<Vec<Name>>
    requires { IsTrue S.told → IsSure (S.view system.old) }
    ensures names { IsTrue S.told → IfOk result (λ names. names.items ≡ keys (disk_view (S.view system.old)).files) }
    ensures looks { IsTrue S.told → Looks (disk_view (S.view system.old)) (disk_view (S.view system.new)) }
    ensures keeps { IsTrue S.told → Keeps (S.view system.old) (S.view system.new) }
    ensures stays { IsTrue S.told → (S.view system.new).folder ≡ (S.view system.old).folder }
    ensures cause { HasCause (S.faults system.old) (S.faults system.new) (IsErr result) }
{
    system.names(alloc)
}

/// The length of a file.
pub(crate) fn size_of<S: System>(system: &mut S, name: Name) -> io::Result<Option<u64>>
    requires { IsTrue S.told → IsSure (S.view system.old) }
    ensures size { IsTrue S.told → IfOk result (λ size. size ≡ size_of (content (disk_view (S.view system.old)).files name)) }
    ensures looks { IsTrue S.told → Looks (disk_view (S.view system.old)) (disk_view (S.view system.new)) }
    ensures keeps { IsTrue S.told → Keeps (S.view system.old) (S.view system.new) }
    ensures stays { IsTrue S.told → (S.view system.new).folder ≡ (S.view system.old).folder }
    ensures cause { HasCause (S.faults system.old) (S.faults system.new) (IsErr result) }
{
    system.length(name)
}

/// Reads bytes.
pub(crate) fn read_file<S: System>(
    system: &mut S,
    files: &mut OpenFiles<S::Handle>,
    name: Name,
    at: u64,
    into: &mut [u8],
) -> io::Result<usize>
    requires opened { IsTrue S.told → AreOpen S.inode (S.view system.old) files.old.files.items }
    requires sure { IsTrue S.told → IsSure (S.view system.old) }
    ensures within { IfOk result (λ n. n ≤ length into.old) }
    ensures count { IsTrue S.told → (c : List ℕ) → Reads (disk_view (S.view system.old)).files name c
        → IfOk result (λ n. n ≡ min (length into.old) (length c - at)) }
    ensures bytes { IsTrue S.told → (c : List ℕ) → Reads (disk_view (S.view system.old)).files name c
        → IfOk result (λ n. into.new ≡ take n (drop at c) ++ drop n into.old) }
    ensures looks { IsTrue S.told → Looks (disk_view (S.view system.old)) (disk_view (S.view system.new)) }
    ensures keeps { IsTrue S.told → OnOk result (Keeps (S.view system.old) (S.view system.new)) }
    ensures kept { IsTrue S.told → OnOk result (AreOpen S.inode (S.view system.new) files.new.files.items) }
    ensures cause { HasCause (S.faults system.old) (S.faults system.new) (IsErr result) }
{
    let entry = match handle(system, files, name, false) {
        Ok(entry) => entry,
        Err(e) => return Err(e),
    };
    let filled = system.read(&entry.file, at, into);
    files.keep(entry);
    filled
}
