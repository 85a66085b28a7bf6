//! What a folder refuses: each call after one that failed, and names that lead nowhere or are taken.

use crate::steps::Its::{Log, Old, Store};
use crate::steps::Step::{
    self, Create, Failed, Has, Lacks, Lists, Remove, Rename, Settle, Sync, Write,
};
use crate::steps::{assert_none, clear, first_wrong_of};
use disk_folder::Access;
use std::fs;
use std::os::unix::fs::symlink;
use std::test::*;

/// A store of one log.
const ONE_LOG: &[(Step, bool)] = &[
    (Create(Log(1)), true),
    (Write(Log(1), 0, b"help wanted"), true),
    (Sync(Log(1)), true),
];

/// The same store, as a disk finds it.
const IS_THERE: &[(Step, bool)] = &[
    (Lists(&[Log(1)]), true),
    (Has(Log(1), 0, b"help wanted"), true),
    (Failed(0), true),
];

/// What fails on it.
const FAILING: &[Step] = &[
    Create(Log(1)),
    Has(Log(2), 0, b""),
    Write(Log(2), 0, b"x"),
    Write(Log(1), 0x7FFF_FFFF_FFFF_FFFF, b"x"),
    Sync(Log(2)),
    Rename(Log(2), Old(2)),
    Remove(Log(2)),
];

/// The first of these that doesn't fail, and count once, on a disk that is made for it.
fn first_done(rt: &HostRuntime, access: Access, steps: &[Step]) -> Option<usize> {
    for (at, step) in steps.iter().enumerate() {
        let expected = [(*step, false), (Failed(1), true)];
        if first_wrong_of(rt, access, &expected).is_some() {
            return Some(at);
        }
    }
    None
}

#[test]
fn each_call_may_fail(rt: HostRuntime) {
    clear(&rt);
    assert_none(&rt, first_wrong_of(&rt, Access::Writing, ONE_LOG));
    assert_none(&rt, first_done(&rt, Access::Writing, FAILING));
    assert_none(&rt, first_wrong_of(&rt, Access::Writing, IS_THERE));
    clear(&rt);
}

/// After one that failed each call fails, also one that would come off.
const AFTER_A_FAULT: &[(Step, bool)] = &[
    (Has(Log(1), 0, b"help wanted"), true),
    (Create(Log(1)), false),
    (Failed(1), true),
    (Lists(&[Log(1)]), false),
    (Lacks(Log(2)), false),
    (Has(Log(1), 0, b"help wanted"), false),
    (Create(Log(2)), false),
    (Write(Log(1), 0, b"x"), false),
    (Sync(Log(1)), false),
    (Rename(Log(1), Old(1)), false),
    (Remove(Log(1)), false),
    (Settle, false),
    (Failed(10), true),
];

#[test]
fn nothing_is_done_after_a_fault(rt: HostRuntime) {
    clear(&rt);
    assert_none(&rt, first_wrong_of(&rt, Access::Writing, ONE_LOG));
    assert_none(&rt, first_wrong_of(&rt, Access::Writing, AFTER_A_FAULT));
    assert_none(&rt, first_wrong_of(&rt, Access::Reading, IS_THERE));
    clear(&rt);
}

/// What fails where a store's file is a link that leads nowhere.
const OF_A_LINK: &[Step] = &[Lists(&[]), Lacks(Store(1, 1))];

/// Makes such a link in a folder.
fn is_linked(rt: &HostRuntime) -> bool {
    fs::create_dir(rt, "hwal-store").is_ok()
        && symlink(rt, "../nowhere", "hwal-store/store-1-1").is_ok()
}

#[test]
fn links_that_lead_nowhere_are_refused(rt: HostRuntime) {
    clear(&rt);
    assert!(rt; is_linked(&rt));
    assert_none(&rt, first_done(&rt, Access::Reading, OF_A_LINK));
    assert_none(&rt, first_done(&rt, Access::Writing, OF_A_LINK));
    clear(&rt);
}

/// What fails where the folder is such a link.
const OF_A_FOLDER: &[Step] = &[Settle, Lists(&[]), Lacks(Log(1)), Create(Log(1))];

#[test]
fn a_folder_that_leads_nowhere_is_refused(rt: HostRuntime) {
    clear(&rt);
    assert!(rt; symlink(&rt, "nowhere", "hwal-store").is_ok());
    assert_none(&rt, first_done(&rt, Access::Writing, OF_A_FOLDER));
    let _ = fs::remove_file(&rt, "hwal-store");
}

/// Links an old log's name to what is no file.
fn is_name_taken(rt: &HostRuntime) -> bool {
    symlink(rt, "/dev/null", "hwal-store/old-1").is_ok()
}

/// Whether the link is still there.
fn is_link_left(rt: &HostRuntime) -> bool {
    match fs::symlink_metadata(rt, "hwal-store/old-1") {
        Ok(found) => found.is_symlink(),
        Err(_) => false,
    }
}

#[test]
fn a_taken_name_is_left_alone(rt: HostRuntime) {
    clear(&rt);
    assert_none(&rt, first_wrong_of(&rt, Access::Writing, ONE_LOG));
    assert!(rt; is_name_taken(&rt));
    assert_none(
        &rt,
        first_done(&rt, Access::Writing, &[Rename(Log(1), Old(1))]),
    );
    assert!(rt; is_link_left(&rt));
    assert_none(&rt, first_wrong_of(&rt, Access::Writing, IS_THERE));
    clear(&rt);
}
