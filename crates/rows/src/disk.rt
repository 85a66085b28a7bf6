//! Disks in memory that hold given files, and the files that a disk holds.

ghost use Rattle.log_model.specs.Files.{IsName};

use crate::error::RowsError;
use disk_fakes::{Fail, MemDisk};
use disk_images::{Disk, Failed, Name, NameKind};
use row_files::StoredFile;
use std::alloc::{AllocError, Global};

/// A disk with these files, whose calls of these kinds and numbers fail. The calls that place the files are counted.
pub fn disk_with(
    alloc: Global,
    files: &[StoredFile],
    fails: &[Fail],
) -> Result<MemDisk, RowsError> {
    let mut disk = MemDisk::new(alloc, fails)?;
    for file in files {
        place(&mut disk, named(file.name), &file.bytes)?;
    }
    Ok(disk)
}

/// The name, with region 0 where it is one of a log.
fn named(name: Name) -> Name
    ensures { IsName result }
{
    match name.kind {
        NameKind::Log | NameKind::Old => Name {
            kind: name.kind,
            region: 0,
            number: name.number,
        },
        NameKind::Store | NameKind::Edits => name,
    }
}

/// Makes a file that isn't there. The settle leaves no name that is gone.
fn place(disk: &mut MemDisk, name: Name, bytes: &[u8]) -> Result<(), Failed>
    requires { IsName name }
{
    disk.settle()?;
    if disk.size(name)?.is_some() {
        return Err(Failed);
    }
    disk.create(name)?;
    if bytes.is_empty() {
        return Ok(());
    }
    disk.write_at(name, 0, bytes)
}

/// The files of a disk, in the order of their names. They are read from what a crash now leaves where each call is done:
/// that disk has no calls that fail.
pub fn files_of(alloc: Global, disk: &MemDisk) -> Result<Vec<StoredFile>, RowsError> {
    let moment = disk.clock();
    let mut image = disk.crash(alloc, moment, 0)?;
    let names = image.names(alloc)?;
    Ok(copied(alloc, &image, names.as_slice())?)
}

/// The files of these names.
fn copied(alloc: Global, disk: &MemDisk, names: &[Name]) -> Result<Vec<StoredFile>, AllocError> {
    let mut files = Vec::new(alloc);
    for name in names {
        if let Some(bytes) = disk.bytes(*name) {
            add_file(alloc, &mut files, *name, bytes)?;
        }
    }
    Ok(files)
}

fn add_file(
    alloc: Global,
    files: &mut Vec<StoredFile>,
    name: Name,
    bytes: &[u8],
) -> Result<(), AllocError> {
    let bytes = bytes.to_vec(alloc)?;
    files.push(StoredFile { name, bytes })?;
    Ok(())
}
