//! Openings that are cut, and openings after a failed fsync.

use crate::former::{CALLS, FILES, File, NONE, made_all, made_in_doubt, reads};
use folder_system::SystemDisk;
use std::alloc::Global;
use std::process::Abort;
use std::test::*;
use system_fakes::{Failing, FakeSystem, Fate};

/// How many calls an opening of the three files makes: it lists them, makes eight calls on each file, and syncs the folder.
const OPENING: u64 = 26;

/// How many images of each moment are looked at.
const IMAGES: u64 = 6;

/// The folder as an opening leaves it, and how many faults that had.
fn opened(system: FakeSystem, alloc: Global) -> (FakeSystem, u64) {
    let disk = SystemDisk::open(system, alloc);
    let faults = disk.faults();
    (disk.into_system(), faults)
}

fn read_all(system: &mut FakeSystem, files: &[File]) -> bool {
    for file in files {
        if !reads(system, *file) {
            return false;
        }
    }
    true
}

/// Whether the files read as they were written in each image of a crash now.
fn are_in_images(system: &FakeSystem, files: &[File]) -> bool {
    for choice in 0..IMAGES {
        match system.image(choice) {
            Ok(image) => {
                let mut image = image;
                if !read_all(&mut image, files) {
                    return false;
                }
            }
            Err(_) => return false,
        }
    }
    true
}

/// Whether an opening that stops at this call leaves each file in each image.
fn is_cut_well(alloc: Global, failing: Failing) -> bool {
    let Some(system) = made_all(alloc, failing) else {
        return false;
    };
    let (system, faults) = opened(system, alloc);
    faults == 1 && are_in_images(&system, FILES)
}

/// Whether the opening after one in which this call failed has each file, and so has each image of it.
fn is_opened_again(alloc: Global, failing: Failing) -> bool {
    let Some(system) = made_all(alloc, failing) else {
        return false;
    };
    let (system, faults) = opened(system, alloc);
    let (mut system, later) = opened(system, alloc);
    faults == 1 && later == 0 && read_all(&mut system, FILES) && are_in_images(&system, FILES)
}

/// The first call of an opening that is cut, or fails, with another outcome than it is to have.
fn first_wrong(alloc: Global, fate: Fate) -> Option<u64> {
    for call in 1..=OPENING {
        let from = CALLS + call;
        let cut = Failing {
            from,
            count: u64::MAX,
            fate,
        };
        let once = Failing {
            from,
            count: 1,
            fate,
        };
        if !is_cut_well(alloc, cut) || !is_opened_again(alloc, once) {
            return Some(call);
        }
    }
    None
}

/// How many calls there were after an opening in which none fails.
fn calls_in_all(alloc: Global) -> Option<u64> {
    let (system, _) = opened(made_all(alloc, NONE)?, alloc);
    Some(system.calls())
}

#[test]
fn each_call_of_an_opening_may_fail(rt: HostRuntime) {
    let alloc = rt.alloc();
    assert!(rt; calls_in_all(alloc) == Some(CALLS + OPENING));
    assert_none(&rt, first_wrong(alloc, Fate::Refused));
    assert_none(&rt, first_wrong(alloc, Fate::Unsaid));
}

fn assert_none(rt: &impl Abort, wrong: Option<u64>) {
    assert_eq!(rt; wrong, None);
}

/// Whether a log whose fsync failed is lost in some image, and in none after an opening.
fn is_pinned_by_opening(alloc: Global, fate: Fate) -> bool {
    let Some(system) = made_in_doubt(alloc, fate) else {
        return false;
    };
    let may_be_lost = !are_in_images(&system, &[File::Log]);
    let (mut system, faults) = opened(system, alloc);
    may_be_lost
        && faults == 0
        && reads(&mut system, File::Log)
        && are_in_images(&system, &[File::Log])
}

#[test]
fn opening_pins_what_a_failed_fsync_left(rt: HostRuntime) {
    let alloc = rt.alloc();
    assert!(rt; is_pinned_by_opening(alloc, Fate::Refused));
    assert!(rt; is_pinned_by_opening(alloc, Fate::Unsaid));
}
