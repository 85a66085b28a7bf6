//! One more call that ships, among a store's calls.

ghost use Rattle.std.specs.Prelude.{◌≡◌, ◌≢◌, ◌++◌, List, Err, IsTrue, IsErrOf, IfOk, OnOk};
ghost use Rattle.disk_images.specs.Calls.{HasCause};
ghost use Rattle.chronicle_model.specs.Chronicle.{Position as ThePosition};
ghost use Rattle.log_tail.specs.Position.{position_of};
ghost use Rattle.log_tail.specs.Reads.{OnlyReads};
ghost use Rattle.ship_queue.specs.Messages.{Message};
ghost use Rattle.ship_queue.specs.Shipping.{ShipsBeginning, ShipsAll, AreTexts};
ghost use Rattle.shipped_logs.specs.Following.{Moment, IsAt, HasFollowed};

use crate::laws::shipped_begins_the_chronicle;
use disk_images::Disk;
use log_tail::Tail;
use ship_queue::{Peer, Position, ShipRefusal, Shipped, ship_all};
use std::alloc::Global;
use std::sync::Wait;
use std::thread::Threads;

/// Ships all that stands after the position that the peer has recorded, after any calls of the store's device and calls that
/// ship. What the peer was shipped by all these calls, with repeats taken out, begins the chronicle after the first position.
pub fn ship_on<R: Threads + Wait + Sync, D: Disk + Send, P: Peer>(
    rt: &R,
    alloc: Global,
    at: Position,
    disk: &mut D,
    peer: &mut P,
) -> Result<Shipped, ShipRefusal>
    ensures follows { IsTrue D.told → (first : ThePosition) (start : Moment) (later : List Moment)
        → IsAt P.has first start later (D.view disk.old).files peer.old (position_of at) → result ≢ Err ShipRefusal.PeerFault
        → (ns : List Message) × P.has peer.new ns × HasFollowed first start later (D.view disk.new).files ns }
    // Unless the peer failed, it was told exactly what this call read, and with Ok all that stands after the position.
    ensures ships { IsTrue D.told → (ms : List Message) → P.has peer.old ms → result ≢ Err ShipRefusal.PeerFault
        → (more : List Message) × P.has peer.new (ms ++ more) × ShipsBeginning (D.view disk.old).files (position_of at) more
        × IfOk result (λ x. ShipsAll (D.view disk.old).files (position_of at) more (position_of x.position)) }
    ensures all { IsTrue D.told → OnOk result (AreTexts (D.view disk.old).files at.file) }
    // Also where the peer failed, whatever it tells then.
    ensures failed { IsTrue D.told → (first : ThePosition) (start : Moment) (later : List Moment)
        → IsAt P.has first start later (D.view disk.old).files peer.old (position_of at) → result ≡ Err ShipRefusal.PeerFault
        → (ns : List Message) → P.has peer.new ns → HasFollowed first start later (D.view disk.new).files ns }
    ensures looks { IsTrue D.told → OnlyReads (D.view disk.old) (D.view disk.new) }
    ensures disk_cause { HasCause (D.faults disk.old) (D.faults disk.new) (IsErrOf result ShipRefusal.DiskFault) }
    ensures peer_cause { HasCause (P.faults peer.old) (P.faults peer.new) (IsErrOf result ShipRefusal.PeerFault) }
{
    shipped_begins_the_chronicle();
    let mut tail = Tail::at(at);
    ship_all(rt, alloc, &mut tail, disk, peer)
}
