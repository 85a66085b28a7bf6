//! The files of a store as they lie in its folder. Other files, folders, pipes and names in the folder aren't seen.

use crate::fault::Fault;
use crate::spelling::{Spelled, name_of};
use disk_images::Name;
use std::alloc::{AllocError, Global};
use std::fs::{self, File};
use std::io::{self, ErrorKind};
use std::rt::Files;

/// The folder of a store, in the working directory, where no other one is named.
pub const FOLDER: &str = "hwal-store";

/// Where it lies.
pub const AROUND: &str = ".";

/// Where the file of this name lies in a folder.
pub fn path_of(alloc: Global, folder: &str, name: Name) -> Result<String, AllocError> {
    let spelled = Spelled(name);
    format!(in alloc; "{folder}/{spelled}")
}

/// The folder itself, if it is there. By the slash behind its name a folder alone is opened: of a pipe `open` would wait for
/// whoever writes into it.
pub fn open_folder<R: Files<File = File>>(
    rt: &R,
    alloc: Global,
    folder: &str,
) -> io::Result<Option<File>> {
    let path = format!(in alloc; "{folder}/")?;
    match File::open(rt, path.as_str()) {
        Ok(opened) => Ok(Some(opened)),
        Err(e) if e.kind() == ErrorKind::NotFound => {
            check_nothing(rt, folder)?;
            Ok(None)
        }
        Err(e) => Err(e),
    }
}

/// Whether something has this name, be it a link that leads nowhere.
pub fn is_taken<R: Files>(rt: &R, path: &str) -> io::Result<bool> {
    match fs::symlink_metadata(rt, path) {
        Ok(_) => Ok(true),
        Err(e) if e.kind() == ErrorKind::NotFound => Ok(false),
        Err(e) => Err(e),
    }
}

/// Refuses a link that leads nowhere: what it stands for may be on a disk that isn't mounted, and isn't taken for absent.
fn check_nothing<R: Files>(rt: &R, path: &str) -> io::Result<()> {
    if is_taken(rt, path)? {
        Err(leads_nowhere())
    } else {
        Ok(())
    }
}

fn leads_nowhere() -> io::Error {
    io::Error::new(ErrorKind::NotFound, "a link that leads nowhere")
}

/// The length of the file of this name in bytes, or None where there is no such file. A link stands for the file that it
/// leads to; a folder or a pipe is no file.
pub fn length_of<R: Files>(
    rt: &R,
    alloc: Global,
    folder: &str,
    name: Name,
) -> io::Result<Option<u64>> {
    let path = path_of(alloc, folder, name)?;
    match fs::metadata(rt, path.as_str()) {
        Ok(metadata) => Ok(metadata.is_file().then_some(metadata.len())),
        Err(e) if e.kind() == ErrorKind::NotFound => {
            check_nothing(rt, path.as_str())?;
            Ok(None)
        }
        Err(e) => Err(e),
    }
}

/// The names of all files of a store in the folder, in order. A folder that isn't there has none.
pub fn names_in<R: Files + AllocGlobal + Clone + Drop>(
    rt: &R,
    alloc: Global,
    folder: &str,
) -> Result<Vec<Name>, Fault> {
    let mut names = Vec::new(alloc);
    let entries = match fs::read_dir(rt, folder) {
        Ok(entries) => entries,
        Err(e) if e.kind() == ErrorKind::NotFound => return Ok(names),
        Err(e) => return Err(Fault::on_folder("list", e)),
    };
    for entry in entries {
        if let Some(name) = named(rt, alloc, folder, entry)? {
            add_name(&mut names, name)?;
        }
    }
    names.sort()?;
    Ok(names)
}

fn add_name(names: &mut Vec<Name>, name: Name) -> io::Result<()> {
    names.push(name)?;
    Ok(())
}

/// The name of the store's file that an entry of the folder is, if it is one.
fn named<R: Files + Clone + Drop>(
    rt: &R,
    alloc: Global,
    folder: &str,
    entry: io::Result<fs::DirEntry<R>>,
) -> Result<Option<Name>, Fault> {
    let entry = match entry {
        Ok(entry) => entry,
        // A name that is no text is no file's of a store.
        Err(e) if e.kind() == ErrorKind::InvalidFilename => return Ok(None),
        Err(e) => return Err(Fault::on_folder("list", e)),
    };
    let Some(name) = name_of(entry.file_name()) else {
        return Ok(None);
    };
    match length_of(rt, alloc, folder, name) {
        Ok(length) => Ok(length.map(|_| name)),
        Err(e) => Err(Fault::on_file("list", name, e)),
    }
}
