// Each call of a run fails in turn. What is read then, and what a crash at each moment leaves, is what the rules allow.

ghost use Rattle.disk_fakes.specs.Views.{view_of};

use crate::calls::{A, B, C, disk_of, make_calls};
use disk_fakes::{CallKind, Fail, MemDisk};
use disk_images::Name;
use std::alloc::Global;
use std::test::Fail as TestFail;

// What a crash at each moment may leave, as folders parted by |. A folder has the files that are there, each with its
// name and its bytes: ? is any byte, + is any byte or none.
const IMAGES: &[&str] = &[
    "",
    "|a:",
    "|a:++++",
    "a:abcd",
    "a:ab??++",
    "a:ab??++|a:ab??++ b:",
    "a:ab??++|a:ab??++ b:++",
    "a:ab??++ b:12",
    "a:abWXYZ b:12",
    "a:abWXYZ b:12|c:abWXYZ b:12",
    "a:a??XYZ b:12|c:a??XYZ b:12",
    "c:aefXYZ b:12",
    "c:aefXYZ b:12|c:aefXYZ",
    "c:aefXYZ",
    "c:aefXYZ|c:aefXYZ b:",
    "c:aefXYZ|c:aefXYZ b:+",
    "c:aefXYZ|c:aefXYZ b:+|c:aefXYZ a:+",
    "c:aefXYZ a:+",
    "c:aefXYZ a:+|a:+",
    "c:aefXYZ a:+|a:+|c:aefXYZ|",
    "",
];

// The calls of the run: the place, the kind, which of this kind it is, and the clock and the folders that may be read
// where it failed. A failed create, rename or remove was made or not, and a failed write leaves any bytes; it makes a
// moment, and other failed calls make none.
const CALLS: &[(u64, CallKind, u64, u64, &str)] = &[
    (1, CallKind::Names, 1, 0, ""),
    (2, CallKind::Size, 1, 0, ""),
    (3, CallKind::Create, 1, 0, "|a:"),
    (4, CallKind::WriteAt, 1, 2, "a:++++"),
    (5, CallKind::Sync, 1, 2, "a:abcd"),
    (6, CallKind::Read, 1, 3, "a:abcd"),
    (7, CallKind::WriteAt, 2, 4, "a:ab??++"),
    (8, CallKind::Create, 2, 4, "a:abWXYZ|a:abWXYZ b:"),
    (9, CallKind::WriteAt, 3, 6, "a:abWXYZ b:++"),
    (10, CallKind::Sync, 2, 6, "a:abWXYZ b:12"),
    (11, CallKind::Sync, 3, 7, "a:abWXYZ b:12"),
    (12, CallKind::Rename, 1, 8, "a:abWXYZ b:12|c:abWXYZ b:12"),
    (13, CallKind::Names, 2, 9, "c:abWXYZ b:12"),
    (14, CallKind::Read, 2, 9, "c:abWXYZ b:12"),
    (15, CallKind::WriteAt, 4, 10, "c:a??XYZ b:12"),
    (16, CallKind::Sync, 4, 10, "c:aefXYZ b:12"),
    (17, CallKind::Remove, 1, 11, "c:aefXYZ b:12|c:aefXYZ"),
    (18, CallKind::Size, 2, 12, "c:aefXYZ"),
    (19, CallKind::Settle, 1, 12, "c:aefXYZ"),
    (20, CallKind::Create, 3, 13, "c:aefXYZ|c:aefXYZ b:"),
    (21, CallKind::WriteAt, 5, 15, "c:aefXYZ b:+"),
    (22, CallKind::Rename, 2, 15, "c:aefXYZ b:3|c:aefXYZ a:3"),
    (23, CallKind::Settle, 2, 16, "c:aefXYZ a:3"),
    (24, CallKind::Remove, 2, 17, "c:aefXYZ a:3|a:3"),
    (25, CallKind::Remove, 3, 18, "a:3|"),
    (26, CallKind::Settle, 3, 19, ""),
];

const KINDS: &[CallKind] = &[
    CallKind::Names,
    CallKind::Size,
    CallKind::Read,
    CallKind::Create,
    CallKind::WriteAt,
    CallKind::Sync,
    CallKind::Rename,
    CallKind::Remove,
    CallKind::Settle,
];

/// Tells whether these are bytes of the pattern.
fn fits(pattern: &[u8], bytes: &[u8]) -> bool {
    for (i, want) in pattern.iter().enumerate() {
        let is_like = match bytes.get(i) {
            None => *want == b'+',
            Some(byte) => *want == b'+' || *want == b'?' || *want == *byte,
        };
        if !is_like {
            return false;
        }
    }
    bytes.len() <= pattern.len()
}

/// Tells whether the folder has the file as it is.
fn has_file(folder: &str, start: &str, bytes: Option<&[u8]>) -> bool {
    for file in folder.split(' ') {
        if let Some(pattern) = file.strip_prefix(start) {
            return match bytes {
                Some(bytes) => fits(pattern.as_bytes(), bytes),
                None => false,
            };
        }
    }
    bytes.is_none()
}

/// Tells whether the disk reads as one of the folders.
fn reads_as(disk: &MemDisk, folders: &str) -> bool {
    for folder in folders.split('|') {
        if has_file(folder, "a:", disk.bytes(A))
            && has_file(folder, "b:", disk.bytes(B))
            && has_file(folder, "c:", disk.bytes(C))
        {
            return true;
        }
    }
    false
}

/// What a crash at this moment leaves, by this choice. It is never dropped: no trial shows how.
fn image_of(
    disk: &MemDisk,
    alloc: Global,
    moment: u64,
    choice: u64,
) -> Option<&'static mut MemDisk> {
    if moment > disk.clock() {
        return None;
    }
    let image = disk.crash(alloc, moment, choice).ok()?;
    Some(Box::leak(Box::new(alloc, image).ok()?))
}

/// Whether a crash at this moment leaves one of the folders, by each of four choices.
fn are_images(disk: &MemDisk, alloc: Global, moment: u64, folders: &str) -> bool {
    for choice in 0..4 {
        match image_of(disk, alloc, moment, choice) {
            Some(image) if reads_as(image, folders) => {}
            _ => return false,
        }
    }
    true
}

/// Whether a crash at each moment so far leaves one of its folders.
fn leaves_images(disk: &MemDisk, alloc: Global) -> bool {
    let mut all = true;
    for (moment, folders) in IMAGES.iter().enumerate() {
        let moment = moment as u64;
        all = all && (moment > disk.clock() || are_images(disk, alloc, moment, folders));
    }
    all
}

/// How many calls were made.
fn all_calls(disk: &MemDisk) -> u64 {
    let mut sum: u64 = 0;
    for kind in KINDS {
        sum = sum.saturating_add(disk.calls(*kind));
    }
    sum
}

/// Whether so many calls and moments were made, one of the folders is read, and a crash leaves what it may.
fn is_left(disk: &MemDisk, alloc: Global, calls: u64, clock: u64, folders: &str) -> bool {
    all_calls(disk) == calls
        && disk.clock() == clock
        && reads_as(disk, folders)
        && leaves_images(disk, alloc)
}

/// Whether the run ends with the call of this number and kind, and leaves what it may.
fn ends_with(
    disk: &mut MemDisk,
    alloc: Global,
    place: u64,
    call: CallKind,
    nth: u64,
    clock: u64,
    folders: &str,
) -> bool
    requires { (m : _) → ¬ (view_of disk.old).gone m }
{
    make_calls(disk, alloc).is_err()
        && disk.calls(call) == nth
        && is_left(disk, alloc, place, clock, folders)
}

#[test]
fn each_call_fails_in_turn(rt: HostRuntime) -> Result<(), TestFail> {
    let alloc = rt.alloc();
    for (place, call, nth, clock, folders) in CALLS {
        let (call, nth) = (*call, *nth);
        let disk = disk_of(alloc, &[Fail { call, nth }])?;
        assert!(rt;
            ends_with(disk, alloc, *place, call, nth, *clock, folders),
            "{place}"
        );
    }
    Ok(())
}

// What a crash leaves by one choice: 0 all that was done, 1 nothing that may be lost, 2 each write torn, of which every second
// byte has each bit turned over: 0x9D is the letter b so, 0x9B the letter d.
const EXACT: &[(u64, u64, Name, Option<&[u8]>)] = &[
    (0, 0, A, None),
    (1, 0, A, Some(b"")),
    (1, 1, A, None),
    (1, 2, A, Some(b"")),
    (2, 0, A, Some(b"abcd")),
    (2, 1, A, None),
    (2, 2, A, Some(b"a\x9Dc\x9B")),
    (3, 0, A, Some(b"abcd")),
    (3, 1, A, Some(b"abcd")),
    (3, 2, A, Some(b"abcd")),
    // A file that was renamed has either name until that is settled, and one that was removed is there.
    (9, 0, C, Some(b"abWXYZ")),
    (9, 1, A, Some(b"abWXYZ")),
    (9, 1, C, None),
    (12, 0, B, None),
    (12, 1, B, Some(b"12")),
    (13, 1, A, None),
    (13, 1, B, None),
];

/// Whether a crash at this moment, by this choice, leaves these bytes of the file.
fn leaves(
    disk: &MemDisk,
    alloc: Global,
    moment: u64,
    choice: u64,
    name: Name,
    bytes: Option<&[u8]>,
) -> bool {
    match image_of(disk, alloc, moment, choice) {
        Some(image) => image.bytes(name) == bytes,
        None => false,
    }
}

/// Whether a crash after the first write leaves a part of it by one of the other choices.
fn is_cut_short(disk: &MemDisk, alloc: Global) -> bool {
    let mut is_cut = false;
    for choice in 3..40 {
        is_cut = is_cut
            || leaves(disk, alloc, 2, choice, A, Some(b"a"))
            || leaves(disk, alloc, 2, choice, A, Some(b"ab"))
            || leaves(disk, alloc, 2, choice, A, Some(b"abc"));
    }
    is_cut
}

#[test]
fn no_call_fails(rt: HostRuntime) -> Result<(), TestFail> {
    let alloc = rt.alloc();
    let disk = disk_of(alloc, &[])?;
    let made = make_calls(disk, alloc).is_ok();
    assert!(rt; made && is_left(disk, alloc, 26, 20, "") && is_cut_short(disk, alloc));
    for (moment, choice, name, bytes) in EXACT {
        let is_so = leaves(disk, alloc, *moment, *choice, *name, *bytes);
        assert!(rt; is_so, "moment {moment} choice {choice}");
    }
    Ok(())
}
