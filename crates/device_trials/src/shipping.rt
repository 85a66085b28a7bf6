//! Shipping what stands in a device's logs, between its calls and at each moment.

use crate::bench::Bench;
use crate::entries::two_regions;
use crate::files::crash_at;
use crate::script::{SCRIPT, take};
use disk_fakes::MemDisk;
use log_tail::{Position, Tail};
use ship_queue::{MemPeer, ship_all};
use std::alloc::Global;
use std::sync::Wait;
use std::test::Fail;
use std::thread::Threads;

/// After each step of the script: how many of its edits are synced, and the position after them.
const BEHIND: [(usize, u64, u64); 11] = [
    (0, 1, 0),
    (1, 1, 1),
    (1, 1, 1),
    (1, 1, 1),
    (3, 1, 3),
    (3, 2, 0),
    (3, 2, 0),
    (3, 2, 0),
    (3, 2, 0),
    (5, 2, 2),
    (5, 2, 2),
];

/// The script's edits: region, number, and the log and the place in it. The first three stand in the first log.
const SHIPPED: [(u32, u64, u64, u64); 5] = [
    (1, 1, 1, 1),
    (1, 2, 1, 2),
    (2, 1, 1, 3),
    (1, 3, 2, 1),
    (2, 2, 2, 2),
];

/// Ships what stands after the recorded position in the logs that a crash at this moment leaves.
fn ship_at<R: Threads + Wait + Sync + AllocGlobal>(
    rt: &R,
    disk: &MemDisk,
    peer: &mut MemPeer,
    moment: u64,
) -> Result<(), Fail> {
    let first = Position {
        file: 1,
        entries: 0,
    };
    let image = crash_at(rt.alloc(), disk, moment, 0)?;
    let mut tail = Tail::at(peer.recorded().unwrap_or(first));
    ship_all(rt, rt.alloc(), &mut tail, image, peer)?;
    Ok(())
}

/// Ships from the device's disk as it stands.
fn ship_now<R: Threads + Wait + Sync + AllocGlobal>(
    rt: &R,
    bench: &Bench<MemDisk>,
    peer: &mut MemPeer,
) -> Result<(), Fail> {
    let disk = bench.device.disk();
    ship_at(rt, disk, peer, disk.clock())
}

/// A peer to which nothing was shipped. It is never dropped.
fn new_peer(alloc: Global) -> Result<&'static mut MemPeer, Fail> {
    Ok(Box::leak(Box::new(alloc, MemPeer::new(alloc))?))
}

/// Whether so many of the script's edits were shipped, each once and in order, and this position is recorded.
fn is_shipped(peer: &MemPeer, want: (usize, u64, u64)) -> bool {
    let (count, file, entries) = want;
    let mut all = peer.recorded() == Some(Position { file, entries })
        && peer.shipped().len() == count;
    for (i, one) in peer.shipped().iter().enumerate() {
        let shipped = (one.region, one.number, one.at.file, one.at.entries);
        all = all && SHIPPED.get(i) == Some(&shipped);
    }
    all
}

/// Takes a device through the script, and ships after the steps with these numbers and at the end. Whether each ships what it has to.
fn ship_steps<R: Threads + Wait + Sync + AllocGlobal>(
    rt: &R,
    bench: &mut Bench<MemDisk>,
    peer: &mut MemPeer,
    first: usize,
    second: usize,
) -> Result<bool, Fail> {
    let mut all = true;
    for i in 0..11 {
        take(rt.alloc(), bench, SCRIPT[i])?;
        if i == first || i == second {
            ship_now(rt, bench, peer)?;
            all = all && is_shipped(peer, BEHIND[i]);
        }
    }
    ship_now(rt, bench, peer)?;
    Ok(all && is_shipped(peer, BEHIND[10]))
}

#[test]
fn shipped_behind_each_two_steps(rt: HostRuntime) -> Result<(), Fail> {
    for pair in 0..121 {
        let bench = two_regions(rt.alloc())?;
        let peer = new_peer(rt.alloc())?;
        let is_shipped = ship_steps(&rt, bench, peer, pair / 11, pair % 11)?;
        assert!(rt; is_shipped, "{pair}");
    }
    Ok(())
}

/// Takes a device through the script.
fn take_all(alloc: Global, bench: &mut Bench<MemDisk>) -> Result<(), Fail> {
    for step in &SCRIPT {
        take(alloc, bench, *step)?;
    }
    Ok(())
}

#[test]
fn shipped_at_each_moment(rt: HostRuntime) -> Result<(), Fail> {
    let bench = two_regions(rt.alloc())?;
    take_all(rt.alloc(), bench)?;
    let peer = new_peer(rt.alloc())?;
    let disk = bench.device.disk();
    for moment in 0..disk.clock().saturating_add(1) {
        ship_at(&rt, disk, peer, moment)?;
    }
    assert!(rt; is_shipped(peer, BEHIND[10]));
    Ok(())
}
