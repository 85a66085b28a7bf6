// A run of disk calls that has each kind several times.

ghost use Rattle.std.specs.Prelude.{◌<◌, length, IfOk, OnOk};
ghost use Rattle.log_model.specs.Files.{IsName};
ghost use Rattle.disk_fakes.specs.Views.{view_of};

use disk_fakes::{Fail, MemDisk};
use disk_images::{Disk, Failed, Name, NameKind};
use std::alloc::Global;
use std::test::Fail as TestFail;

// The three files of the run. The tables call them a, b and c.
pub const A: Name = Name {
    kind: NameKind::Log,
    region: 0,
    number: 1,
};

pub const B: Name = Name {
    kind: NameKind::Log,
    region: 0,
    number: 2,
};

pub const C: Name = Name {
    kind: NameKind::Old,
    region: 0,
    number: 1,
};

/// An empty disk whose calls of these kinds and numbers fail. It is never dropped: no trial shows how.
pub fn disk_of(alloc: Global, fails: &[Fail]) -> Result<&'static mut MemDisk, TestFail>
    ensures { IfOk result (λ disk. (m : _) → ¬ (view_of disk.now).gone m) }
{
    Ok(Box::leak(Box::new(alloc, MemDisk::new(alloc, fails)?)?))
}

fn names(disk: &mut MemDisk, alloc: Global) -> Result<(), Failed>
    ensures { (m : _) → ¬ (view_of disk.old).gone m → ¬ (view_of disk.new).gone m }
{
    match disk.names(alloc) {
        Ok(_) => Ok(()),
        Err(_) => Err(Failed),
    }
}

/// Makes a file where there is none of its name.
pub fn create(disk: &mut MemDisk, name: Name) -> Result<(), Failed>
    requires named { IsName name }
    requires none_gone { (m : _) → ¬ (view_of disk.old).gone m }
    ensures { (m : _) → ¬ (view_of disk.new).gone m }
{
    match disk.bytes(name) {
        None => {}
        Some(_) => return Err(Failed),
    }
    disk.create(name)
}

/// Reads the first bytes of a file that is there.
fn read(disk: &mut MemDisk, name: Name) -> Result<(), Failed>
    ensures { (m : _) → ¬ (view_of disk.old).gone m → ¬ (view_of disk.new).gone m }
{
    match disk.bytes(name) {
        Some(_) => {}
        None => return Err(Failed),
    }
    disk.read(name, 0, &mut [0; 4])?;
    Ok(())
}

/// Writes within a file that is there, or at its end.
pub fn write(disk: &mut MemDisk, name: Name, at: u64, bytes: &[u8]) -> Result<(), Failed>
    requires { 0 < length bytes.now }
    ensures { (m : _) → ¬ (view_of disk.old).gone m → ¬ (view_of disk.new).gone m }
{
    match disk.bytes(name) {
        Some(text) if at <= text.len() as u64 => {}
        _ => return Err(Failed),
    }
    disk.write_at(name, at, bytes)
}

fn sync(disk: &mut MemDisk, name: Name) -> Result<(), Failed>
    ensures { (m : _) → ¬ (view_of disk.old).gone m → ¬ (view_of disk.new).gone m }
{
    match disk.bytes(name) {
        Some(_) => {}
        None => return Err(Failed),
    }
    disk.sync(name)
}

fn rename(disk: &mut MemDisk, from: Name, to: Name) -> Result<(), Failed>
    requires named { IsName to }
    requires none_gone { (m : _) → ¬ (view_of disk.old).gone m }
{
    if disk.bytes(from).is_none() || disk.bytes(to).is_some() {
        return Err(Failed);
    }
    disk.rename(from, to)
}

fn remove(disk: &mut MemDisk, name: Name) -> Result<(), Failed> {
    match disk.bytes(name) {
        Some(_) => {}
        None => return Err(Failed),
    }
    disk.remove(name)
}

/// The first file is made durable: the moments 1 to 3.
fn make_first(disk: &mut MemDisk, alloc: Global) -> Result<(), Failed>
    requires { (m : _) → ¬ (view_of disk.old).gone m }
    ensures { (m : _) → ¬ (view_of disk.new).gone m }
{
    names(disk, alloc)?;
    disk.size(A)?;
    create(disk, A)?;
    write(disk, A, 0, b"abcd")?;
    sync(disk, A)
}

/// It is written over, and the second one is made: the moments 4 to 6.
fn make_second(disk: &mut MemDisk) -> Result<(), Failed>
    requires { (m : _) → ¬ (view_of disk.old).gone m }
    ensures { (m : _) → ¬ (view_of disk.new).gone m }
{
    read(disk, A)?;
    write(disk, A, 2, b"WXYZ")?;
    create(disk, B)?;
    write(disk, B, 0, b"12")
}

/// Both are made durable, the second one first: the moments 7 and 8.
fn sync_both(disk: &mut MemDisk) -> Result<(), Failed>
    requires { (m : _) → ¬ (view_of disk.old).gone m }
    ensures { (m : _) → ¬ (view_of disk.new).gone m }
{
    sync(disk, B)?;
    sync(disk, A)
}

/// Both files are made durable: the moments 1 to 8.
fn make_both(disk: &mut MemDisk, alloc: Global) -> Result<(), Failed>
    requires { (m : _) → ¬ (view_of disk.old).gone m }
    ensures { (m : _) → ¬ (view_of disk.new).gone m }
{
    make_first(disk, alloc)?;
    make_second(disk)?;
    sync_both(disk)
}

/// The first one gets another name: the moments 9 to 11.
fn move_first(disk: &mut MemDisk, alloc: Global) -> Result<(), Failed>
    requires { (m : _) → ¬ (view_of disk.old).gone m }
{
    rename(disk, A, C)?;
    names(disk, alloc)?;
    read(disk, C)?;
    write(disk, C, 1, b"ef")?;
    sync(disk, C)
}

/// The second one goes, and both are settled: the moments 12 and 13.
fn remove_second(disk: &mut MemDisk) -> Result<(), Failed>
    ensures { OnOk result ((m : _) → ¬ (view_of disk.new).gone m) }
{
    remove(disk, B)?;
    disk.size(B)?;
    disk.settle()
}

/// A file that isn't synced gets another name: the moments 14 to 17.
fn move_unsynced(disk: &mut MemDisk) -> Result<(), Failed>
    requires { (m : _) → ¬ (view_of disk.old).gone m }
{
    create(disk, B)?;
    write(disk, B, 0, b"3")?;
    rename(disk, B, A)?;
    disk.settle()
}

/// All files go: the moments 18 to 20.
fn remove_both(disk: &mut MemDisk) -> Result<(), Failed> {
    remove(disk, C)?;
    remove(disk, A)?;
    disk.settle()
}

/// What comes after the first two files: the moments 9 to 20.
fn move_all(disk: &mut MemDisk, alloc: Global) -> Result<(), Failed>
    requires { (m : _) → ¬ (view_of disk.old).gone m }
{
    move_first(disk, alloc)?;
    remove_second(disk)?;
    move_unsynced(disk)?;
    remove_both(disk)
}

/// The whole run. It ends with the first call that fails.
pub fn make_calls(disk: &mut MemDisk, alloc: Global) -> Result<(), Failed>
    requires { (m : _) → ¬ (view_of disk.old).gone m }
{
    make_both(disk, alloc)?;
    move_all(disk, alloc)
}
