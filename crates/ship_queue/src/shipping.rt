//! Shipping what stands after a position.

ghost use Rattle.std.specs.Prelude.{◌≡◌, ◌≢◌, ℕ, List, ◌++◌, ◌∷◌, length, IsTrue, IsErrOf, IfOk, OnOk};
ghost use Rattle.log_model.specs.declared.name.Name.{Name as TheName};
ghost use Rattle.disk_images.specs.Calls.{HasCause};
ghost use Rattle.chronicle_model.specs.Chronicle.{Placed, Position as ThePosition, IsChronicle, behind};
ghost use Rattle.chronicle_model.specs.Growth.{IsGoingOn};
ghost use Rattle.log_tail.specs.Position.{position_of};
ghost use Rattle.log_tail.specs.Reads.{IsDamagedAt, IsNoPosition, OnlyReads};
ghost use Rattle.ship_queue.specs.Messages.{Message};
ghost use Rattle.ship_queue.specs.Course.{counted, LeadsTo};
ghost use Rattle.ship_queue.specs.Refusals.{IsOrFailure};
ghost use Rattle.ship_queue.specs.Shipping.{ShipsBeginning, ShipsUpTo, ShipsAll, IsPartShip, IsShipStep, AreTexts, HasReadUpTo};

use crate::error::{ShipRefusal, Shipped};
use crate::peer::Peer;
use crate::rounds::{Ending, ship_read};
use disk_images::Disk;
use log_tail::Tail;
use std::alloc::Global;
use std::sync::Wait;
use std::thread::Threads;

/// Ships all that stands after the tail's position in the disk's logs, in order, until a reading of the tail gives nothing
/// and doesn't move it. It records a position after each 64 entries, and the tail's at the end. Where it is refused it has
/// shipped what it had read, unless the peer failed; begin then with a new tail at the position that the peer has recorded.
pub fn ship_all<R: Threads + Wait + Sync, D: Disk + Send, P: Peer>(
    rt: &R,
    alloc: Global,
    tail: &mut Tail,
    disk: &mut D,
    peer: &mut P,
) -> Result<Shipped, ShipRefusal>
    // Unless the peer fails, it was told exactly what stands between the position and the tail's new one, and after each 64
    // entries, and with Ok at the end, a record that is true of it.
    ensures ships { IsTrue D.told → (ms : List Message) → P.has peer.old ms → result ≢ Err ShipRefusal.PeerFault
        → (more : List Message) × P.has peer.new (ms ++ more) × ShipsBeginning (D.view disk.old).files tail.old more
        × ShipsUpTo (D.view disk.old).files tail.old more tail.new
        × IfOk result (λ x. ShipsAll (D.view disk.old).files tail.old more (position_of x.position)) }
    // The logs from the position's on are texts, and what they have after it was counted.
    ensures all { IsTrue D.told → OnOk result (AreTexts (D.view disk.old).files tail.old.file) }
    ensures count { IsTrue D.told → (c : List Placed) → IsChronicle (D.view disk.old).files c
        → IfOk result (λ x. x.entries ≡ counted (length (behind c tail.old))) }
    ensures position { IfOk result (λ x. position_of x.position ≡ tail.new) }
    // The tail stands after what was read, where readings lead it.
    ensures leads { IsTrue D.told → LeadsTo (D.view disk.old).files tail.old tail.new }
    ensures tail { IsTrue D.told → (c : List Placed) → IsChronicle (D.view disk.old).files c → HasReadUpTo c tail.old tail.new }

    // A peer that fails has a beginning, and has recorded nothing beyond that.
    ensures failed { IsTrue D.told → (c : List Placed) (ms ns : List Message) → IsChronicle (D.view disk.old).files c
        → P.has peer.old ms → P.has peer.new ns → result ≡ Err ShipRefusal.PeerFault → IsPartShip c tail.old ms ns }
    // It failed within one message of those, and was told nothing more.
    ensures torn { IsTrue D.told → (ms : List Message) → P.has peer.old ms → result ≡ Err ShipRefusal.PeerFault
        → (more : List Message) × (m : Message) × (rest : List Message) × P.torn peer.new (ms ++ more) m
        × ShipsBeginning (D.view disk.old).files tail.old (more ++ m ∷ rest) }
    // Where the highest log has no end yet, each position that the peer records is one at which a reader stops.
    ensures reached { IsTrue D.told → IsGoingOn (D.view disk.old).files → (c : List Placed) (ms : List Message)
        → IsChronicle (D.view disk.old).files c → P.has peer.old ms → result ≢ Err ShipRefusal.PeerFault
        → (ns : List Message) × P.has peer.new ns × IsShipStep (D.view disk.old).files c tail.old ms ns }
    ensures reached_so_far { IsTrue D.told → IsGoingOn (D.view disk.old).files → (c : List Placed) (ms ns : List Message)
        → IsChronicle (D.view disk.old).files c → P.has peer.old ms → P.has peer.new ns → result ≡ Err ShipRefusal.PeerFault
        → IsShipStep (D.view disk.old).files c tail.old ms ns }
    // Damage, and a position that is none, are told exactly where readings lead to them, unless something fails before.
    ensures damaged { IsTrue D.told → (name : TheName) (at : ℕ) → result ≡ Err (ShipRefusal.Damaged name at)
        → IsDamagedAt (D.view disk.old).files tail.new.file name at }
    ensures damage { IsTrue D.told → (q : ThePosition) (name : TheName) (at : ℕ) → LeadsTo (D.view disk.old).files tail.old q
        → IsDamagedAt (D.view disk.old).files q.file name at → IsOrFailure result (ShipRefusal.Damaged name at) }
    ensures no_position { IsTrue D.told → (file has : ℕ) → result ≡ Err (ShipRefusal.NoPosition file has)
        → IsNoPosition (D.view disk.old).files tail.new file has }
    ensures out { IsTrue D.told → (q : ThePosition) (file has : ℕ) → LeadsTo (D.view disk.old).files tail.old q
        → IsNoPosition (D.view disk.old).files q file has → IsOrFailure result (ShipRefusal.NoPosition file has) }
    ensures looks { IsTrue D.told → OnlyReads (D.view disk.old) (D.view disk.new) }
    ensures stays { P.stays peer.old peer.new }
    ensures disk_cause { HasCause (D.faults disk.old) (D.faults disk.new) (IsErrOf result ShipRefusal.DiskFault) }
    ensures peer_cause { HasCause (P.faults peer.old) (P.faults peer.new) (IsErrOf result ShipRefusal.PeerFault) }
{
    match ship_read(rt, alloc, tail, disk, peer) {
        Ending::AtEnd(count) => {
            let position = tail.position();
            peer.confirm(position)?;
            Ok(Shipped {
                entries: count.entries,
                position,
            })
        }
        Ending::Refused(e) => Err(ShipRefusal::from(e)),
        Ending::PeerFailed => Err(ShipRefusal::PeerFault),
    }
}
