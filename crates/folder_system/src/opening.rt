//! What an opening does before it believes what reads give: a write or an fsync of a former program may have failed.
//!
//! After a failed fsync Linux takes the pages of the file for clean, and keeps them: a later program reads from memory what the
//! disk doesn't have, and its own fsync answers ok and writes nothing. A new file has no such past. So each file that may have been
//! left so is copied to a new one beside it, which is synced and put in its place.

ghost use Rattle.std.specs.Prelude.{◌≡◌, ◌≢◌, ◌<◌, ◌+◌, ◌^◌, [], length, Contains, true, is_some, IsTrue, IsErr, IfOk, OnOk};
ghost use Rattle.std.specs.FinMap.{get};
ghost use Rattle.disk_images.specs.Calls.{HasCause};
ghost use Rattle.folder_system.specs.View.{Opens};
ghost use Rattle.folder_system.specs.Mending.{OpensSafely, Mends, Renews, Copies, Grows};

use crate::System;
use disk_images::Name;
use std::alloc::Global;
use std::io::{self, ErrorKind};

/// How many bytes are copied at a time.
const PIECE: usize = 65_536;

/// A file ends below this many bytes.
const LIMIT: u64 = 1 << 63;

/// A call of an opening that failed, on this file or, without a name, on the folder.
pub(crate) struct Fault {
    pub call: &'static str,
    pub name: Option<Name>,
    pub cause: io::Error,
}

/// Makes sure of each file, and then of the names. A file has its old bytes or its copy's, which are the same as they read, at each
/// moment: it may be stopped or fail at any call, and is done again by the next opening.
pub(crate) fn mend<S: System>(system: &mut S, alloc: Global) -> Result<(), Fault>
    ensures opens { IsTrue S.told → OnOk result (Opens (S.view system.old) (S.view system.new)) }
    ensures safely { IsTrue S.told → OnOk result (OpensSafely (S.view system.old) (S.view system.new)) }
    ensures cause { HasCause (S.faults system.old) (S.faults system.new) (IsErr result) }
{
    let names = match system.names(alloc) {
        Ok(names) => names,
        Err(cause) => return Err(on_folder("list", cause)),
    };
    match mend_files(system, names.as_slice()) {
        Ok(()) => {}
        Err(fault) => return Err(fault),
    }
    match system.sync_folder() {
        Ok(()) => {}
        Err(cause) => return Err(on_folder("sync", cause)),
    }
    match system.tick() {
        Ok(()) => Ok(()),
        Err(cause) => Err(on_folder("sync", cause)),
    }
}

fn on_folder(call: &'static str, cause: io::Error) -> Fault {
    Fault {
        call,
        name: None,
        cause,
    }
}

fn mend_files<S: System>(system: &mut S, names: &[Name]) -> Result<(), Fault>
    requires there { IsTrue S.told → (m : Name) → Contains names.now m → is_some (get (S.view system.old).folder m) ≡ true }
    ensures mends { IsTrue S.told → OnOk result (Mends (S.view system.old) (S.view system.new) names.now) }
    ensures cause { HasCause (S.faults system.old) (S.faults system.new) (IsErr result) }
{
    for name in names {
        match mend_file(system, *name) {
            Ok(()) => {}
            Err(cause) => {
                return Err(Fault {
                    call: "renew",
                    name: Some(*name),
                    cause,
                });
            }
        }
    }
    Ok(())
}

/// Makes sure of a file, unless that was done.
fn mend_file<S: System>(system: &mut S, name: Name) -> io::Result<()>
    requires there { IsTrue S.told → is_some (get (S.view system.old).folder name) ≡ true }
    ensures renews { IsTrue S.told → OnOk result (Renews name (S.view system.old) (S.view system.new)) }
    ensures cause { HasCause (S.faults system.old) (S.faults system.new) (IsErr result) }
{
    let is_sealed = match system.is_sealed(name) {
        Ok(is_sealed) => is_sealed,
        Err(e) => return Err(e),
    };
    if is_sealed {
        return Ok(());
    }
    renew(system, name)
}

/// Copies a file, and puts the copy in its place once it is durable: no crash leaves a part of it under its name.
fn renew<S: System>(system: &mut S, name: Name) -> io::Result<()>
    requires there { IsTrue S.told → is_some (get (S.view system.old).folder name) ≡ true }
    ensures renews { IsTrue S.told → OnOk result (Renews name (S.view system.old) (S.view system.new)) }
    ensures cause { HasCause (S.faults system.old) (S.faults system.new) (IsErr result) }
{
    let from = match system.open(name, false) {
        Ok(from) => from,
        Err(e) => return Err(e),
    };
    let to = match system.create_part(name) {
        Ok(to) => to,
        Err(e) => return Err(e),
    };
    match copy_bytes(system, &from, &to) {
        Ok(()) => {}
        Err(e) => return Err(e),
    }
    match system.copy_access(name, &from, &to) {
        Ok(()) => {}
        Err(e) => return Err(e),
    }
    match system.sync(&to) {
        Ok(()) => {}
        Err(e) => return Err(e),
    }
    system.put_in_place(name)
}

/// Copies all bytes to a file that is empty.
fn copy_bytes<S: System>(system: &mut S, from: &S::Handle, to: &S::Handle) -> io::Result<()>
    requires apart { IsTrue S.told → S.inode from.now ≢ S.inode to.now }
    requires empty { IsTrue S.told → (S.view system.old).bytes (S.inode to.now) ≡ [] }
    requires certain { IsTrue S.told → ¬ (S.view system.old).doubtful (S.inode to.now) }
    ensures copies { IsTrue S.told → OnOk result (Copies (S.inode from.now) (S.inode to.now) (S.view system.old) (S.view system.new)) }
    ensures cause { HasCause (S.faults system.old) (S.faults system.new) (IsErr result) }
{
    let mut piece = [0u8; PIECE];
    let mut at = 0u64;
    'copy: while at < LIMIT {
        let count = match copy_piece(system, from, to, at, &mut piece) {
            Ok(count) => count,
            Err(e) => return Err(e),
        };
        if count == 0 {
            return Ok(());
        }
        at += count;
    }
    // No write ends there.
    Err(io::Error::from(ErrorKind::FileTooLarge))
}

/// Copies what stands at this offset, a piece at the most, and gives its length in bytes. The copy ends at the offset.
fn copy_piece<S: System>(
    system: &mut S,
    from: &S::Handle,
    to: &S::Handle,
    at: u64,
    piece: &mut [u8],
) -> io::Result<u64>
    requires room { 0 < length piece.old }
    requires below { at < 2 ^ 63 }
    requires apart { IsTrue S.told → S.inode from.now ≢ S.inode to.now }
    requires end { IsTrue S.told → length ((S.view system.old).bytes (S.inode to.now)) ≡ at }
    requires certain { IsTrue S.told → ¬ (S.view system.old).doubtful (S.inode to.now) }
    ensures grows { IsTrue S.told → IfOk result (λ n. Grows (S.inode from.now) (S.inode to.now) at n (S.view system.old) (S.view system.new)) }
    ensures fits { IfOk result (λ n. at + n < 2 ^ 63) }
    ensures kept { length piece.new ≡ length piece.old }
    ensures cause { HasCause (S.faults system.old) (S.faults system.new) (IsErr result) }
{
    let count = match system.read(from, at, piece) {
        Ok(count) => count,
        Err(e) => return Err(e),
    };
    if count == 0 {
        return Ok(0);
    }
    match system.write(to, at, &piece[..count]) {
        Ok(()) => Ok(count as u64),
        Err(e) => Err(e),
    }
}
