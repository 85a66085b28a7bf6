//! What is done before a read is believed, since a sync of an earlier program may have failed.
//!
//! After a failed fsync Linux takes the pages of the file for clean, and keeps them: a later program reads from memory what the
//! disk doesn't have, and its own fsync answers Ok and writes nothing. A new file has no such past. So each file that an earlier
//! program may have left so is written anew beside itself, synced, and put in its own place.

use crate::calls::read_from;
use crate::entries::{names_in, path_of};
use crate::fault::Fault;
use crate::limits::too_long;
use disk_images::{Name, NameKind};
use std::alloc::Global;
use std::fs::{self, File, OpenOptions, Permissions};
use std::io::{self, ErrorKind};
use std::os::unix::fs::{FileExt, MetadataExt, OpenOptionsExt, PermissionsExt, fchown};
use std::rt::Files;

/// How many bytes are copied at a time.
const PIECE: usize = 65_536;

/// The mode of a copy until it gets that of the file: nobody else reads its bytes meanwhile.
const OWNER_ALONE: u32 = 0o600;

/// Makes sure of the folder that this handle has locked: each log, edits file and store is one that no sync failed of, and their
/// names are durable. A store is written anew once: it is read-only from then on. No old log is: a log is made sure of
/// before the opening renames it, and one that a running program archives was synced by that program.
///
/// A file has its old bytes or its new ones, which are the same as they read, at each moment: it may be stopped or fail at any
/// call, and is done again by the next opening. `most` is the greatest length that a file may get.
pub fn mend_folder<R: Files<File = File> + AllocGlobal + Clone + Drop>(
    rt: &R,
    alloc: Global,
    folder: &str,
    held: &File,
    most: u64,
) -> Result<(), Fault> {
    let names = names_in(rt, alloc, folder)?;
    for name in names.iter() {
        if let Err(e) = mend_named(rt, alloc, folder, *name, most) {
            return Err(Fault::on_file("renew", *name, e));
        }
    }
    match held.sync_all() {
        Ok(()) => Ok(()),
        Err(e) => Err(Fault::on_folder("sync", e)),
    }
}

fn mend_named<R: Files<File = File>>(
    rt: &R,
    alloc: Global,
    folder: &str,
    name: Name,
    most: u64,
) -> io::Result<()> {
    let path = path_of(alloc, folder, name)?;
    let found = fs::metadata(rt, path.as_str())?;
    if name.kind == NameKind::Old
        || (name.kind == NameKind::Store && found.permissions().readonly())
    {
        return Ok(());
    }
    if found.len() > most {
        return Err(too_long());
    }
    let is_store = name.kind == NameKind::Store;
    if fs::symlink_metadata(rt, path.as_str())?.is_symlink() {
        renew_linked(rt, alloc, path.as_str(), is_store)
    } else {
        renew(rt, alloc, path.as_str(), is_store)
    }
}

/// Renews the file that a link leads to, where it lies.
fn renew_linked<R: Files<File = File>>(
    rt: &R,
    alloc: Global,
    link: &str,
    is_store: bool,
) -> io::Result<()> {
    let mut real = rt.canonicalize(alloc, link)?;
    renew(rt, alloc, real.as_str(), is_store)?;
    real.pop();
    File::open(rt, real.as_str())?.sync_all()
}

/// Writes a file anew, and puts it in its own place once it is durable: no crash leaves a part of it under its name.
fn renew<R: Files<File = File>>(
    rt: &R,
    alloc: Global,
    path: &str,
    is_store: bool,
) -> io::Result<()> {
    let part = format!(in alloc; "{path}.part")?;
    remove_former(rt, part.as_str())?;
    let old = File::open(rt, path)?;
    let new = OpenOptions::new()
        .write(true)
        .create_new(true)
        .mode(OWNER_ALONE)
        .open(rt, part.as_str())?;
    copy_bytes(alloc, &old, &new)?;
    copy_access(&old, &new, is_store)?;
    new.sync_all()?;
    fs::rename(rt, part.as_str(), path)
}

/// Removes what an opening left that was stopped.
fn remove_former<R: Files>(rt: &R, part: &str) -> io::Result<()> {
    match fs::remove_file(rt, part) {
        Err(e) if e.kind() == ErrorKind::NotFound => Ok(()),
        given => given,
    }
}

fn copy_bytes(alloc: Global, old: &File, new: &File) -> io::Result<()> {
    let mut piece = vec![in alloc; 0u8; PIECE]?;
    let mut at = 0u64;
    for _ in 0..u64::MAX {
        let count = read_from(old, at, &mut piece)?;
        if count == 0 {
            return Ok(());
        }
        new.write_all_at(&piece[..count], at)?;
        at = at.saturating_add(count as u64);
    }
    Ok(())
}

/// Gives the new file the old one's owner, group and mode, where this process may set them. A store is written no more.
fn copy_access(old: &File, new: &File, is_store: bool) -> io::Result<()> {
    let found = old.metadata()?;
    let mode = found.mode() & if is_store { 0o555 } else { 0o777 };
    unless_denied(fchown(new, None, Some(found.gid())))?;
    unless_denied(fchown(new, Some(found.uid()), None))?;
    unless_denied(new.set_permissions(Permissions::from_mode(mode)))
}

/// An owner or a mode that this process may not set stays. In a user namespace an owner that it doesn't map can't be named.
fn unless_denied(given: io::Result<()>) -> io::Result<()> {
    match given {
        Err(e) if e.kind() == ErrorKind::PermissionDenied || e.kind() == ErrorKind::InvalidInput =>
            Ok(()),
        other => other,
    }
}
