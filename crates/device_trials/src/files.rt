//! Disks with files, and what stands on a disk. What a trial makes is never dropped, so that no exit of it writes out how: no trial
//! shows that.

ghost use Rattle.std.specs.Prelude.{◌<◌, IsTrue, IfOk, OnOk, length};
ghost use Rattle.log_model.specs.Files.{IsName};
ghost use Rattle.disk_fakes.specs.Views.{view_of};

use disk_fakes::{Fail, MemDisk, MemSink};
use disk_images::{Disk, Name, NameKind};
use std::alloc::Global;
use std::test::Fail as TestFail;

/// A file that lies on a disk: its name's kind, region and number, and its bytes.
pub(crate) type File = (NameKind, u32, u64, &'static [u8]);

pub(crate) fn name_of(file: File) -> Name {
    Name {
        kind: file.0,
        region: file.1,
        number: file.2,
    }
}

/// Makes these files, and makes them durable.
fn add_all(disk: &mut MemDisk, files: &[File]) -> Result<(), TestFail>
    requires none_gone { (m : _) → ¬ (view_of disk.old).gone m }
    ensures none_gone { (m : _) → ¬ (view_of disk.new).gone m }
{
    for file in files {
        add(disk, name_of(*file), file.3)?;
    }
    disk.settle()?;
    Ok(())
}

/// A disk on which these files are durable, whose calls of these kinds and numbers fail.
pub(crate) fn disk_of(
    alloc: Global,
    files: &[File],
    fails: &[Fail],
) -> Result<&'static mut MemDisk, TestFail>
    ensures { IfOk result (λ disk. (m : _) → ¬ (view_of disk.now).gone m) }
{
    let mut disk = MemDisk::new(alloc, fails)?;
    add_all(&mut disk, files)?;
    Ok(Box::leak(Box::new(alloc, disk)?))
}

/// Whether a log or an old log has region 0.
fn is_named(name: Name) -> bool
    ensures { IsTrue result → IsName name }
{
    match name.kind {
        NameKind::Log | NameKind::Old => name.region == 0,
        NameKind::Store | NameKind::Edits => true,
    }
}

/// Makes a file with these bytes; it may be empty.
pub(crate) fn add(disk: &mut MemDisk, name: Name, bytes: &[u8]) -> Result<(), TestFail>
    requires none_gone { (m : _) → ¬ (view_of disk.old).gone m }
    ensures none_gone { (m : _) → ¬ (view_of disk.new).gone m }
{
    if !is_named(name) {
        return Err(TestFail::new("no such file can be"));
    }
    create(disk, name)?;
    if bytes.is_empty() {
        return Ok(());
    }
    write(disk, name, bytes)
}

fn create(disk: &mut MemDisk, name: Name) -> Result<(), TestFail>
    requires named { IsName name }
    requires none_gone { (m : _) → ¬ (view_of disk.old).gone m }
    ensures none_gone { (m : _) → ¬ (view_of disk.new).gone m }
{
    if disk.bytes(name).is_some() {
        return Err(TestFail::new("it is there"));
    }
    disk.create(name)?;
    Ok(())
}

fn write(disk: &mut MemDisk, name: Name, bytes: &[u8]) -> Result<(), TestFail>
    requires some { 0 < length bytes.now }
    requires none_gone { (m : _) → ¬ (view_of disk.old).gone m }
    ensures none_gone { (m : _) → ¬ (view_of disk.new).gone m }
{
    if disk.bytes(name).is_none() {
        return Err(TestFail::new("it isn't there"));
    }
    disk.write_at(name, 0, bytes)?;
    disk.sync(name)?;
    Ok(())
}

/// Whether the file is there.
fn has_file(disk: &MemDisk, file: File) -> bool {
    disk.bytes(name_of(file)) == Some(file.3)
}

/// Whether as many files are there as these.
fn has_so_many(alloc: Global, disk: &mut MemDisk, files: &[File]) -> Result<bool, TestFail> {
    let names = disk.names(alloc)?;
    Ok(names.as_slice().len() == files.len())
}

/// These files are to be there, and no other.
pub(crate) fn has_files(alloc: Global, disk: &mut MemDisk, files: &[File]) -> Result<(), TestFail> {
    let so_many = has_so_many(alloc, disk, files)?;
    hold(so_many, "there are more files, or fewer")?;
    for file in files {
        hold(has_file(disk, *file), "a file has other bytes")?;
    }
    Ok(())
}

/// What a crash at this moment may leave.
pub(crate) fn crash_at(
    alloc: Global,
    disk: &MemDisk,
    moment: u64,
    choice: u64,
) -> Result<&'static mut MemDisk, TestFail> {
    if moment > disk.clock() {
        return Err(TestFail::new("no such moment"));
    }
    let image = disk.crash(alloc, moment, choice)?;
    Ok(Box::leak(Box::new(alloc, image)?))
}

/// A sink that takes all.
pub(crate) fn sink_of(alloc: Global) -> Result<&'static mut MemSink, TestFail> {
    let sink = MemSink::new(alloc, &[])?;
    Ok(Box::leak(Box::new(alloc, sink)?))
}

/// Fails a trial where this doesn't hold.
pub(crate) fn hold(holds: bool, what: &'static str) -> Result<(), TestFail> {
    if holds {
        Ok(())
    } else {
        Err(TestFail::new(what))
    }
}
