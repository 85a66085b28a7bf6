//! A peer that fails while the logs after the one that is shipped were read already, and what is shipped then.

use crate::logs::{IN_EACH, LOGS, disk_of_many};
use crate::peers::FailPeer;
use disk_fakes::MemDisk;
use log_tail::{Position, Tail};
use ship_queue::{ShipRefusal, ShippedEntry, ship_all};
use std::process::Abort;
use std::sync::Wait;
use std::test::Fail;
use std::thread::Threads;

const FIRST: Position = Position {
    file: 1,
    entries: 0,
};

/// The position after all: the last log goes on.
const LAST: Position = Position {
    file: LOGS,
    entries: IN_EACH,
};

/// How many entries there are: fewer than come before a record, so that the last call alone records.
const ALL: u64 = LOGS * IN_EACH;

/// Whether the entry is the one with this number, counted from 0 over all logs, with its place.
fn is_entry(one: &ShippedEntry, number: u64) -> bool {
    let at = Position {
        file: (number / IN_EACH).saturating_add(1),
        entries: (number % IN_EACH).saturating_add(1),
    };
    one.number == number.saturating_add(1) && one.at == at
}

/// Whether so many entries came in order, and then all.
fn are_all_again(shipped: &[ShippedEntry], come: u64) -> bool {
    let mut place: u64 = 0;
    for one in shipped {
        let number = if place < come { place } else { place - come };
        if !is_entry(one, number) {
            return false;
        }
        place = place.saturating_add(1);
    }
    place == come.saturating_add(ALL)
}

/// Ships to a peer that fails at this call, which is of an entry, and then all to the same peer. The peer is never dropped.
fn fail_once<R: Threads + Wait + Sync + AllocGlobal + Abort>(
    rt: &R,
    disk: &mut MemDisk,
    call: u64,
    keeps: bool,
) -> Result<(), Fail> {
    let alloc = rt.alloc();
    let peer = FailPeer::new(alloc, call, keeps);
    let peer: &'static mut FailPeer = Box::leak(Box::new(alloc, peer)?);
    let mut tail = Tail::at(FIRST);
    let failed = ship_all(rt, alloc, &mut tail, disk, peer);
    let is_fault = matches!(failed, Err(ShipRefusal::PeerFault));
    assert!(rt; is_fault && peer.told.recorded().is_none());
    let mut tail = Tail::at(FIRST);
    let shipped = ship_all(rt, alloc, &mut tail, disk, peer)?;
    assert!(rt; shipped.entries == ALL && shipped.position == LAST);
    let come = if keeps { call } else { call.saturating_sub(1) };
    let is_recorded = peer.told.recorded() == Some(LAST);
    assert!(rt;
        is_recorded && are_all_again(peer.told.shipped(), come),
        "{call}"
    );
    Ok(())
}

// At each entry of six logs: the ring holds one reading, and one more waits to be pushed.
#[test]
fn the_peer_fails_behind_the_worker(rt: HostRuntime) -> Result<(), Fail> {
    let disk = disk_of_many(rt.alloc())?;
    for call in 1..=ALL {
        fail_once(&rt, disk, call, false)?;
        fail_once(&rt, disk, call, true)?;
    }
    Ok(())
}
