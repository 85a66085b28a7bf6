//! A peer that fails at each call in turn, and a second call that begins at the recorded position.

use crate::logs::{FEW, Logs, MANY, disk_of};
use crate::peers::FailPeer;
use disk_fakes::MemDisk;
use log_tail::{Position, Tail};
use ship_queue::{ShipRefusal, ShippedEntry, ship_all};
use std::process::Abort;
use std::sync::Wait;
use std::test::Fail;
use std::thread::Threads;

/// Where all begins.
const FIRST: Position = Position {
    file: 1,
    entries: 0,
};

/// A record stands after each 64 entries: so many calls of the peer are 64 entries and a record.
const ROUND: u64 = 65;

/// The position after the first entries of both logs.
fn behind(logs: Logs, count: u64) -> Position {
    if count <= logs.in_first {
        Position {
            file: 1,
            entries: count,
        }
    } else {
        Position {
            file: 2,
            entries: count - logs.in_first,
        }
    }
}

/// How many entries have come once this call has failed, and after how many of them a position was recorded. The call after
/// all entries is the last record.
fn come_and_recorded(logs: Logs, call: u64, keeps: bool) -> (u64, u64) {
    let records = call.saturating_sub(1) / ROUND;
    let come = call.saturating_sub(1) - records;
    let recorded = records.saturating_mul(64);
    if !keeps {
        return (come, recorded);
    }
    if come == logs.all || call % ROUND == 0 {
        return (come, come);
    }
    (come.saturating_add(1), recorded)
}

/// Whether so many entries came in order, and then all from another one on.
fn are_shipped(logs: Logs, shipped: &[ShippedEntry], come: u64, again: u64) -> bool {
    let mut place: u64 = 0;
    for one in shipped {
        let number = if place < come {
            place.saturating_add(1)
        } else {
            (place - come).saturating_add(again).saturating_add(1)
        };
        if one.number != number || one.at != behind(logs, number) {
            return false;
        }
        place = place.saturating_add(1);
    }
    place == come.saturating_add(logs.all.saturating_sub(again))
}

/// Ships to a peer that fails, and answers up to which position a record was made. It is behind so many entries.
fn ship_to_the_fault<R: Threads + Wait + Sync + AllocGlobal + Abort>(
    rt: &R,
    disk: &mut MemDisk,
    peer: &mut FailPeer,
    position: Position,
) -> Position {
    let mut tail = Tail::at(FIRST);
    let failed = ship_all(rt, rt.alloc(), &mut tail, disk, peer);
    let recorded = peer.told.recorded().unwrap_or(FIRST);
    let is_fault = matches!(failed, Err(ShipRefusal::PeerFault));
    assert!(rt; is_fault && recorded == position);
    recorded
}

/// Ships the rest after a position, which is so many entries up to the last position.
fn ship_the_rest<R: Threads + Wait + Sync + AllocGlobal + Abort>(
    rt: &R,
    disk: &mut MemDisk,
    peer: &mut FailPeer,
    recorded: Position,
    count: u64,
    last: Position,
) -> Result<(), Fail> {
    let mut rest = Tail::at(recorded);
    let shipped = ship_all(rt, rt.alloc(), &mut rest, disk, peer)?;
    let is_recorded = peer.told.recorded().unwrap_or(FIRST) == last;
    assert!(rt; shipped.entries == count && shipped.position == last && is_recorded);
    Ok(())
}

/// Ships to a peer that fails at this call, and then the rest. The peer is never dropped: no trial shows how.
fn fail_and_begin_again<R: Threads + Wait + Sync + AllocGlobal + Abort>(
    rt: &R,
    logs: Logs,
    disk: &mut MemDisk,
    call: u64,
    keeps: bool,
) -> Result<(), Fail> {
    let alloc = rt.alloc();
    let peer = FailPeer::new(alloc, call, keeps);
    let peer: &'static mut FailPeer = Box::leak(Box::new(alloc, peer)?);
    let (come, again) = come_and_recorded(logs, call, keeps);
    let recorded = ship_to_the_fault(rt, disk, peer, behind(logs, again));
    assert!(rt; again <= logs.all);
    let count = logs.all - again;
    ship_the_rest(rt, disk, peer, recorded, count, behind(logs, logs.all))?;
    assert!(rt;
        are_shipped(logs, peer.told.shipped(), come, again),
        "{call}"
    );
    Ok(())
}

/// Lets each call from one to before another fail.
fn fail_each<R: Threads + Wait + Sync + AllocGlobal + Abort>(
    rt: &R,
    logs: Logs,
    first: u64,
    end: u64,
) -> Result<(), Fail> {
    let disk = disk_of(rt.alloc(), logs)?;
    for call in first..end {
        fail_and_begin_again(rt, logs, disk, call, false)?;
        fail_and_begin_again(rt, logs, disk, call, true)?;
    }
    Ok(())
}

// Each call of few, and the calls about a record among many.
#[test]
fn calls_fail_and_the_rest_is_shipped(rt: HostRuntime) -> Result<(), Fail> {
    fail_each(&rt, FEW, 1, 7)?;
    fail_each(&rt, MANY, 63, 73)
}
