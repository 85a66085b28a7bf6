//! What each trial has to leave.

use crate::crowd::Told;
use crate::held::run_held;
use crate::image::{has_all, has_logs};
use crate::steps::{LogRow, PUTS, Row, Trial};
use disk_fakes::{CallKind, MemDisk};
use std::alloc::Global;
use std::process::Abort;
use std::sync::Wait;
use std::test::*;
use std::thread::Threads;

/// How many steps these are.
fn count_of(rows: &[Row]) -> u64 {
    let mut count: u64 = 0;
    for (_, times, _) in rows {
        count = count.wrapping_add(*times);
    }
    count
}

/// How many steps sixteen members take.
fn steps_of(trial: Trial) -> u64 {
    let mut count: u64 = 0;
    for region in 1..17 {
        count = count.wrapping_add(count_of(trial.rows(region)));
    }
    count
}

/// Whether each step was answered as it has to be, and all that sixteen threads put is durable, where the ring was full on the way.
fn are_told(told: Told, least: u64, trial: Trial) -> bool {
    let is_crowd = matches!(trial, Trial::Crowd);
    let is_durable = !is_crowd || (least == PUTS && told.durable == 16 * PUTS && told.full > 0);
    told.right == steps_of(trial) && is_durable
}

/// Whether the logs are there that a trial has to leave, by each choice of a crash.
fn are_left(alloc: Global, disk: &MemDisk, trial: Trial, logs: &[LogRow]) -> bool {
    if matches!(trial, Trial::Crowd) {
        return has_all(alloc, disk, PUTS);
    }
    for choice in 0..4 {
        if !has_logs(alloc, disk, choice, logs) {
            return false;
        }
    }
    true
}

/// Whether the disk was asked for as many writes and syncs as a trial has to ask for: a new log's header, and of a commit the content and
/// the gate.
fn are_made(disk: &MemDisk, trial: Trial) -> bool {
    let made = (disk.calls(CallKind::WriteAt), disk.calls(CallKind::Sync));
    !matches!(trial, Trial::Two) || matches!(made, (3, 3))
}

/// Runs a trial without a fault. Whether what is left is as it has to be.
fn ends_right<R: Wait + Threads + Sync + Abort>(rt: &R, alloc: Global, trial: Trial) -> bool {
    let left = run_held(rt, alloc, &[], trial);
    let (synced, logs) = trial.left();
    !left.broken
        && left.synced == synced
        && are_told(left.told, left.least, trial)
        && are_left(alloc, left.disk.disk(), trial, logs)
        && are_made(left.disk.disk(), trial)
}

// The log has all edits, those of a region in their order.
#[test]
fn sixteen_threads_put(rt: HostRuntime) {
    assert!(rt; ends_right(&rt, rt.alloc(), Trial::Crowd));
}

#[test]
fn moves_while_committing(rt: HostRuntime) {
    assert!(rt; ends_right(&rt, rt.alloc(), Trial::Move));
}

// The edits of two seats are written by one commit: the close finds nothing to write.
#[test]
fn two_puts_one_commit(rt: HostRuntime) {
    assert!(rt; ends_right(&rt, rt.alloc(), Trial::Two));
}

#[test]
fn roll_behind_a_load(rt: HostRuntime) {
    assert!(rt; ends_right(&rt, rt.alloc(), Trial::Roll));
}

#[test]
fn who_waits_is_woken(rt: HostRuntime) {
    assert!(rt; ends_right(&rt, rt.alloc(), Trial::Wait));
}

#[test]
fn roll_behind_a_full_ring(rt: HostRuntime) {
    assert!(rt; ends_right(&rt, rt.alloc(), Trial::Full));
}
