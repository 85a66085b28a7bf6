//! What a write that fails leaves, and disks and sinks that are full.

ghost use Rattle.std.specs.Prelude.{◌<◌, length, IfOk, IsTrue};
ghost use Rattle.log_model.specs.Files.{IsName};
ghost use Rattle.disk_fakes.specs.SafeViews.{safe_view};

use crate::calls::{A, create, disk_of, write};
use disk_fakes::{CallKind, Fail, SafeDisk, SafeSink};
use disk_images::{Disk, Failed, Name, Sink};
use std::alloc::Global;
use std::test::Fail as TestFail;

#[test]
fn failed_write_is_torn(rt: HostRuntime) -> Result<(), TestFail> {
    let fail = Fail {
        call: CallKind::WriteAt,
        nth: 1,
    };
    let disk = disk_of(rt.alloc(), &[fail])?;
    create(disk, A)?;
    let failed = write(disk, A, 0, &[1, 2, 3]).is_err();
    assert!(rt; failed && disk.bytes(A) == Some([1, 2, 0xFC].as_slice()));
    Ok(())
}

/// Creates a file with these bytes on a disk from which no name is gone.
fn put<D: Disk>(disk: &mut D, name: Name, bytes: &[u8]) -> Result<(), Failed>
    requires named { IsName name }
    requires some { 0 < length bytes.now }
    requires none_gone { IsTrue D.told → (m : _) → ¬ (D.view disk.old).gone m }
{
    match disk.size(name)? {
        None => {}
        Some(_) => return Err(Failed),
    }
    disk.create(name)?;
    disk.write_at(name, 0, bytes)
}

/// Creates a file of five bytes, and writes over its end.
fn write_over<D: Disk>(disk: &mut D) -> Result<(), Failed>
    requires { IsTrue D.told → (m : _) → ¬ (D.view disk.old).gone m }
{
    put(disk, A, b"hello")?;
    match disk.size(A)? {
        Some(5) => disk.write_at(A, 3, b"py!"),
        _ => Ok(()),
    }
}

/// A disk with room for so many bytes. It is never dropped: no trial shows how.
fn safe_disk(alloc: Global, capacity: usize) -> Result<&'static mut SafeDisk, TestFail>
    ensures { IfOk result (λ disk. (m : _) → ¬ (safe_view disk.now).gone m) }
{
    Ok(Box::leak(Box::new(alloc, SafeDisk::new(alloc, capacity)?)?))
}

#[test]
fn safe_disk_fails_where_it_is_full(rt: HostRuntime) -> Result<(), TestFail> {
    let wide = safe_disk(rt.alloc(), 8)?;
    let narrow = safe_disk(rt.alloc(), 7)?;
    let is_so = write_over(wide).is_ok() && write_over(narrow).is_err();
    assert!(rt; is_so && narrow.size(A) == Ok(Some(5)));
    Ok(())
}

/// Whether a sink with room for 100 bytes takes them, 64 at most at a time, and no more.
fn takes_its_room(sink: &mut SafeSink) -> bool {
    sink.write(&[7; 100]) == Ok(64)
        && sink.write(&[7; 36]) == Ok(36)
        && sink.write(&[7; 1]).is_err()
        && sink.as_slice() == [7; 100].as_slice()
}

#[test]
fn safe_sink_fails_where_it_is_full(rt: HostRuntime) -> Result<(), TestFail> {
    let sink = SafeSink::new(rt.alloc(), 100)?;
    let sink: &'static mut SafeSink = Box::leak(Box::new(rt.alloc(), sink)?);
    assert!(rt; takes_its_room(sink));
    Ok(())
}
