//! A fault of each disk call of a small script, and what a crash leaves then.

use crate::held::{HeldEnd, run_held};
use crate::image::left_by_crashes;
use crate::steps::Trial;
use disk_fakes::{CallKind, Fail};
use std::alloc::Global;
use std::process::Abort;
use std::sync::Wait;
use std::test::*;
use std::thread::Threads;

/// Whether what is left is as it has to be: broken exactly where the fault came, no less synced than was waited for, each image with the
/// first of the three edits, at least those synced, and all where the log isn't broken. Without a fault two were waited for, and the three
/// are synced.
fn is_right(left: &HeldEnd, reached: bool, fewest: u64, most: u64) -> bool {
    if !left.started {
        return reached && most == 0;
    }
    let durable = left.told.durable;
    let whole = left.broken || (fewest == 3 && durable == 2 && left.synced == 3);
    let in_order = durable <= left.synced && left.synced <= fewest && most <= 3;
    left.broken == reached && in_order && whole
}

/// The script with a fault of this call: whether it makes so many calls of the kind, and whether its end is right.
fn fails_at<R: Wait + Threads + Sync + Abort>(
    rt: &R,
    alloc: Global,
    call: CallKind,
    nth: u64,
) -> (bool, bool) {
    let left = run_held(rt, alloc, &[Fail { call, nth }], Trial::Script);
    let disk = left.disk.disk();
    let reached = disk.calls(call) >= nth;
    match left_by_crashes(alloc, disk) {
        Some((fewest, most)) => (reached, is_right(&left, reached, fewest, most)),
        None => (reached, false),
    }
}

/// Whether each fault of one kind of call ends as it has to. The last number is one that the script doesn't come to: then it has no fault.
fn fail_each<R: Wait + Threads + Sync + Abort>(rt: &R, alloc: Global, call: CallKind) -> bool {
    for nth in 1..100u64 {
        let (reached, right) = fails_at(rt, alloc, call, nth);
        if !right || !reached {
            return right;
        }
    }
    false
}

const KINDS: [CallKind; 9] = [
    CallKind::Names,
    CallKind::Size,
    CallKind::Read,
    CallKind::Create,
    CallKind::WriteAt,
    CallKind::Sync,
    CallKind::Rename,
    CallKind::Remove,
    CallKind::Settle,
];

#[test]
fn fault_of_each_disk_call(rt: HostRuntime) {
    for call in KINDS {
        assert!(rt; fail_each(&rt, rt.alloc(), call), "{call:?}");
    }
}
