//! The command `ship`: prints what stands after a position in a store's logs.

ghost use Rattle.std.specs.Prelude.{◌≡◌, ◌≢◌, ◌≤◌, [], ◌∷◌, ℕ, List, false, IsTrue, IsErrOf, Err, Some};
ghost use Rattle.log_model.specs.declared.name.Name.{Name as TheName};
ghost use Rattle.log_model.specs.declared.damage.Damage.{Damage as TheDamage};
ghost use Rattle.log_model.specs.declared.damage.Damage.TheVariants.{Bytes};
ghost use Rattle.disk_images.specs.Calls.{Rose, HasCause};
ghost use Rattle.log_tail.specs.Position.{position_of};
ghost use Rattle.log_tail.specs.Reads.{OnlyReads};
ghost use Rattle.ship_queue.specs.Refusals.{IsOrFailure};
ghost use Rattle.command_base.specs.Invocation.{invocation, IsUnchanged, KeepsImages};
ghost use Rattle.command_base.specs.Prints.{Prints};
ghost use Rattle.command_base.specs.Status.{refusal_line, IsDamageOf, IsNoPositionOf, IsOrEarlier};
ghost use Rattle.ship_command.specs.Refusals.{HasPrinted, HasCut, refused_as};
ghost use Rattle.ship_command.specs.Shipped.{EndsShip, IsShipDamage, IsShipEnd, LacksPosition};

use crate::sink_peer::SinkPeer;
use command_base::{Damage, Status, emit, refuse};
use disk_images::{Disk, Sink};
use log_tail::{Position, Tail};
use ship_queue::{ShipRefusal, Shipped, ship_all};
use std::alloc::Global;
use std::sync::Wait;
use std::thread::Threads;

/// Carries out `ship` from a position on: prints the entries that stand after it in the disk's logs, a record after each 64 and
/// at the end, and the last line. It writes nothing to the disk. A line that refuses stands after what was printed before.
pub fn ship<R: Threads + Wait + Sync, D: Disk + Send, K: Sink>(
    rt: &R,
    alloc: Global,
    from: Position,
    disk: &mut D,
    out: &mut K,
) -> Status
    // What the sink took.
    ensures ends { IsTrue D.told → IsTrue K.told → (script : List ℕ) → EndsShip (position_of from) result
        (invocation script (D.view disk.old) (D.view disk.new) (K.taken out.old) (K.taken out.new)) (Rose (K.faults out.old) (K.faults out.new)) }
    // The disk stays as it was.
    ensures leaves_disk { IsTrue D.told → IsUnchanged (D.view disk.old) (D.view disk.new) }
    ensures moments { IsTrue D.told → KeepsImages (D.view disk.old) (D.view disk.new) }

    // Which statuses there are, and which comes only where.
    ensures status { IsShipEnd result }
    ensures damage { IsTrue D.told → IsDamageOf result (IsShipDamage (position_of from) (D.view disk.old).files) }
    ensures no_position { IsTrue D.told → IsNoPositionOf result (LacksPosition (position_of from) (D.view disk.old).files) }
    ensures disk_cause { result ≡ Status.DiskFault → Rose (D.faults disk.old) (D.faults disk.new) }
    ensures sink_cause { result ≡ Status.SinkFault → Rose (K.faults out.old) (K.faults out.new) }
    // Damage, and a position that is none, are told wherever readings lead to them, unless something fails before.
    ensures damaged { IsTrue D.told → (damage : TheDamage) → IsShipDamage (position_of from) (D.view disk.old).files damage
        → IsOrEarlier result (Status.Damaged damage) (Status.DiskFault ∷ Status.SinkFault ∷ []) }
    ensures out { IsTrue D.told → (file has : ℕ) → LacksPosition (position_of from) (D.view disk.old).files file has
        → IsOrEarlier result (Status.NoPosition file has) (Status.DiskFault ∷ Status.SinkFault ∷ []) }
    ensures later { (D.faults disk.old ≤ D.faults disk.new) × (K.faults out.old ≤ K.faults out.new) }
{
    match ship_lines(rt, alloc, from, disk, out) {
        Ok(_) => emit(out, b"end 0\n", Status::Done),
        Err(refusal) => end_refused(out, refusal),
    }
}

/// Prints the line that refuses; nothing where the sink failed, as its last line may be torn.
fn end_refused<K: Sink>(out: &mut K, refusal: ShipRefusal) -> Status
    ensures status { result ≡ refused_as refusal }
    ensures prints { IsTrue K.told → (text : List ℕ) → refusal_line (refused_as refusal) ≡ Some text
        → Prints (K.taken out.old) (K.taken out.new) text (Rose (K.faults out.old) (K.faults out.new)) }
    ensures none { refusal ≡ ShipRefusal.PeerFault → K.taken out.new ≡ K.taken out.old }
    ensures later { K.faults out.old ≤ K.faults out.new }
{
    match refusal {
        ShipRefusal::PeerFault => Status::SinkFault,
        other => refuse(out, status_of(other)),
    }
}

/// Prints the entries after a position, and the records.
fn ship_lines<R: Threads + Wait + Sync, D: Disk + Send, K: Sink>(
    rt: &R,
    alloc: Global,
    from: Position,
    disk: &mut D,
    out: &mut K,
) -> Result<Shipped, ShipRefusal>
    ensures written { IsTrue D.told → IsTrue K.told → result ≢ Err ShipRefusal.PeerFault
        → HasPrinted (D.view disk.old).files (position_of from) (K.taken out.old) (K.taken out.new) result }
    ensures torn { IsTrue D.told → IsTrue K.told → result ≡ Err ShipRefusal.PeerFault
        → HasCut (D.view disk.old).files (position_of from) (K.taken out.old) (K.taken out.new) }
    ensures damaged { IsTrue D.told → (name : TheName) (at : ℕ) → result ≡ Err (ShipRefusal.Damaged name at)
        → IsShipDamage (position_of from) (D.view disk.old).files (Bytes name at) }
    ensures damage { IsTrue D.told → (name : TheName) (at : ℕ) → IsShipDamage (position_of from) (D.view disk.old).files (Bytes name at)
        → IsOrFailure result (ShipRefusal.Damaged name at) }
    ensures no_position { IsTrue D.told → (file has : ℕ) → result ≡ Err (ShipRefusal.NoPosition file has)
        → LacksPosition (position_of from) (D.view disk.old).files file has }
    ensures out { IsTrue D.told → (file has : ℕ) → LacksPosition (position_of from) (D.view disk.old).files file has
        → IsOrFailure result (ShipRefusal.NoPosition file has) }
    ensures reads { IsTrue D.told → OnlyReads (D.view disk.old) (D.view disk.new) }
    ensures disk_cause { HasCause (D.faults disk.old) (D.faults disk.new) (IsErrOf result ShipRefusal.DiskFault) }
    ensures sink_cause { HasCause (K.faults out.old) (K.faults out.new) (IsErrOf result ShipRefusal.PeerFault) }
{
    let mut tail = Tail::at(from);
    let mut peer = SinkPeer::over(out);
    ship_to(rt, alloc, &mut tail, disk, &mut peer)
}

/// The same from a tail's position on, to a peer that has written nothing yet. It writes to the same sink still.
fn ship_to<'a, R: Threads + Wait + Sync, D: Disk + Send, K: Sink>(
    rt: &R,
    alloc: Global,
    tail: &mut Tail,
    disk: &mut D,
    peer: &mut SinkPeer<'a, K>,
) -> Result<Shipped, ShipRefusal>
    requires whole { peer.old.failed ≡ false }
    requires first { peer.old.first.value ≡ peer.old.out.now }
    ensures same_reference { peer.new.out.ghost_name ≡ peer.old.out.ghost_name }
    ensures written { IsTrue D.told → IsTrue K.told → result ≢ Err ShipRefusal.PeerFault
        → HasPrinted (D.view disk.old).files tail.old (K.taken peer.old.out.now) (K.taken peer.new.out.now) result }
    ensures torn { IsTrue D.told → IsTrue K.told → result ≡ Err ShipRefusal.PeerFault
        → HasCut (D.view disk.old).files tail.old (K.taken peer.old.out.now) (K.taken peer.new.out.now) }
    ensures damaged { IsTrue D.told → (name : TheName) (at : ℕ) → result ≡ Err (ShipRefusal.Damaged name at)
        → IsShipDamage tail.old (D.view disk.old).files (Bytes name at) }
    ensures damage { IsTrue D.told → (name : TheName) (at : ℕ) → IsShipDamage tail.old (D.view disk.old).files (Bytes name at)
        → IsOrFailure result (ShipRefusal.Damaged name at) }
    ensures no_position { IsTrue D.told → (file has : ℕ) → result ≡ Err (ShipRefusal.NoPosition file has)
        → LacksPosition tail.old (D.view disk.old).files file has }
    ensures out { IsTrue D.told → (file has : ℕ) → LacksPosition tail.old (D.view disk.old).files file has
        → IsOrFailure result (ShipRefusal.NoPosition file has) }
    ensures reads { IsTrue D.told → OnlyReads (D.view disk.old) (D.view disk.new) }
    ensures disk_cause { HasCause (D.faults disk.old) (D.faults disk.new) (IsErrOf result ShipRefusal.DiskFault) }
    ensures sink_cause { HasCause (K.faults peer.old.out.now) (K.faults peer.new.out.now) (IsErrOf result ShipRefusal.PeerFault) }
{
    ship_all(rt, alloc, tail, disk, peer)
}

/// The status of a refusal.
fn status_of(refusal: ShipRefusal) -> Status
    ensures { result ≡ refused_as refusal }
{
    match refusal {
        ShipRefusal::Memory => Status::Memory,
        ShipRefusal::DiskFault => Status::DiskFault,
        ShipRefusal::Damaged { name, at } => Status::Damaged(Damage::Bytes { name, at }),
        ShipRefusal::NoPosition { file, has } => Status::NoPosition { file, has },
        ShipRefusal::PeerFault => Status::SinkFault,
    }
}
