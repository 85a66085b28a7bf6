//! Reading beside shipping.

ghost use Rattle.std.specs.Prelude.{◌≡◌, ◌⊎◌, ◌∷◌, [], length, true, IsTrue, IfOk, None};
ghost use Rattle.crossbeam_queue.specs.Passes.{view};
ghost use Rattle.ship_queue.specs.Halves.{HasEnded, HoldsWhole, IsKeyOf, ReadsOn, ShipsOn};
ghost use Rattle.ship_queue.specs.Gone.{HasGone, IsOpened};

use crate::gate::Gate;
use crate::peer::Peer;
use crate::reading::Reading;
use crate::reading_half::{ReadingHalf, Stage};
use crate::sending::Count;
use crate::shipping_half::ShippingHalf;
use append_ring::{ConsumerPass, NoMemory, Ring, RingKey, RingKeys, RingParts};
use disk_images::Disk;
use log_tail::{Tail, TailRefusal};
use std::alloc::Global;
use std::sync::Wait;
use std::thread::{Threads, join_mut};

/// How many readings the ring holds: so many logs are read ahead, beside the one that waits to be pushed.
const AHEAD: u32 = 1;

/// How a call has ended, but for its last record.
#[derive(Drop)]
pub(crate) enum Ending {
    /// All was read, shipped and counted.
    AtEnd(Count),
    /// The tail was refused. What was read before that was shipped.
    Refused(TailRefusal),
    /// The peer failed.
    PeerFailed,
}

/// A ring of one region, with its key and the right to pop.
#[derive(Drop)]
struct Opened {
    ring: Ring<Reading>,
    keys: RingKeys<Reading>,
    key: RingKey<Reading>,
    consumer: ConsumerPass<Reading>,
}

impl Opened {
    fn new(alloc: Global) -> Result<Opened, NoMemory>
        ensures key { IfOk result (λ o. IsOpened o.ring o.keys o.key) }
        ensures consumer { IfOk result (λ o. (o.consumer.pass.table_id ≡ o.ring.id)
            × (length (view o.consumer.pass).lasts ≡ 1) × ((view o.consumer.pass).popped ≡ [])) }
    {
        let RingParts {
            ring,
            passes: mut keys,
            consumer,
        } = Ring::of_capacity(alloc, &[0], AHEAD)?;
        let Some(key) = keys.next() else {
            unreachable!()
        };
        Ok(Opened {
            ring,
            keys,
            key,
            consumer,
        })
    }
}

/// A round: the worker reads while the caller ships. Where no thread can be made the caller ships, and then it reads.
fn beside<'a, R: Threads + Wait + Sync, D: Disk + Send, P: Peer>(
    rt: &'a R,
    alloc: Global,
    ring: &'a Ring<Reading>,
    gate: &'a Gate,
    tail: &mut Tail,
    disk: &mut D,
    reader: &mut ReadingHalf,
    peer: &mut P,
    shipper: &mut ShippingHalf,
)
    requires key { IsKeyOf ring.now reader.old.key }
    requires whole { HoldsWhole reader.old.stage }
    requires consumer { shipper.old.consumer.pass.table_id ≡ ring.now.id }
    ensures key { IsKeyOf ring.now reader.new.key }
    ensures whole { HoldsWhole reader.new.stage }
    ensures consumer { shipper.new.consumer.pass.table_id ≡ ring.now.id }
    ensures regions { (view shipper.new.consumer.pass).lasts ≡ (view shipper.old.consumer.pass).lasts }
    ensures reads { ReadsOn (IsTrue D.told) D.view D.faults tail.old tail.new disk.old disk.new reader.old reader.new }
    ensures ships { ShipsOn P.has P.torn P.stays P.faults peer.old peer.new shipper.old.count shipper.new.count shipper.old.has_failed shipper.new.has_failed
        (view shipper.old.consumer.pass).popped (view shipper.new.consumer.pass).popped }
{
    gate.begin_round();
    join_mut(
        rt,
        &mut || -> ()
            requires key { IsKeyOf ring.now reader.now.key }
            requires whole { HoldsWhole reader.now.stage }
            ensures key { IsKeyOf ring.entry.now reader.exit.now.key }
            ensures whole { HoldsWhole reader.exit.now.stage }
            ensures reads { ReadsOn (IsTrue D.told) D.view D.faults tail.entry.now tail.exit.now disk.entry.now disk.exit.now reader.entry.now reader.exit.now }
        { reader.read_on(rt, alloc, ring, gate, tail, disk) },
        &mut || -> ()
            requires consumer { shipper.now.consumer.pass.table_id ≡ ring.now.id }
            ensures consumer { shipper.exit.now.consumer.pass.table_id ≡ ring.entry.now.id }
            ensures regions { (view shipper.exit.now.consumer.pass).lasts ≡ (view shipper.entry.now.consumer.pass).lasts }
            ensures ships { ShipsOn P.has P.torn P.stays P.faults peer.entry.now peer.exit.now shipper.entry.now.count shipper.exit.now.count
                shipper.entry.now.has_failed shipper.exit.now.has_failed
                (view shipper.entry.now.consumer.pass).popped (view shipper.exit.now.consumer.pass).popped }
        { shipper.ship_on(rt, ring, gate, peer) },
    );
}

/// Rounds, until the tail reads no more or the peer has failed.
fn go_on<R: Threads + Wait + Sync, D: Disk + Send, P: Peer>(
    rt: &R,
    alloc: Global,
    ring: &Ring<Reading>,
    gate: &Gate,
    tail: &mut Tail,
    disk: &mut D,
    reader: &mut ReadingHalf,
    peer: &mut P,
    shipper: &mut ShippingHalf,
)
    requires key { IsKeyOf ring.now reader.old.key }
    requires whole { HoldsWhole reader.old.stage }
    requires consumer { shipper.old.consumer.pass.table_id ≡ ring.now.id }
    ensures key { IsKeyOf ring.now reader.new.key }
    ensures consumer { shipper.new.consumer.pass.table_id ≡ ring.now.id }
    ensures regions { (view shipper.new.consumer.pass).lasts ≡ (view shipper.old.consumer.pass).lasts }
    ensures ended { HasEnded reader.new.stage ⊎ (shipper.new.has_failed ≡ true) }
    ensures reads { ReadsOn (IsTrue D.told) D.view D.faults tail.old tail.new disk.old disk.new reader.old reader.new }
    ensures ships { ShipsOn P.has P.torn P.stays P.faults peer.old peer.new shipper.old.count shipper.new.count shipper.old.has_failed shipper.new.has_failed
        (view shipper.old.consumer.pass).popped (view shipper.new.consumer.pass).popped }
{
    for _round in rt.forever() {
        beside(rt, alloc, ring, gate, tail, disk, reader, peer, shipper);
        if reader.has_ended() || shipper.has_failed {
            return;
        }
    }
    unreachable!()
}

/// Ships what the ring still holds, and closes it: what was popped is then what was pushed.
fn settle<R: Wait, P: Peer>(
    rt: &R,
    ring: Ring<Reading>,
    gate: &Gate,
    keys: RingKeys<Reading>,
    key: RingKey<Reading>,
    peer: &mut P,
    shipper: ShippingHalf,
) -> (Count, bool)
    requires keys { keys ≡ None ∷ [] }
    requires key { IsKeyOf ring key }
    requires consumer { shipper.consumer.pass.table_id ≡ ring.id }
    requires regions { length (view shipper.consumer.pass).lasts ≡ 1 }
    ensures still { shipper.has_failed ≡ true → result.1 ≡ true }
    ensures ships { ShipsOn P.has P.torn P.stays P.faults peer.old peer.new shipper.count result.0 shipper.has_failed result.1
        (view shipper.consumer.pass).popped (view key.pass).pushed }
{
    let mut keys = keys;
    let mut shipper = shipper;
    keys.put_back(key);
    for _step in rt.forever() {
        if ring.drained(&keys, &shipper.consumer) {
            let ShippingHalf {
                consumer,
                count,
                has_failed,
            } = shipper;
            ring.close(keys, consumer);
            return (count, has_failed);
        }
        shipper.ship_next(rt, &ring, gate, peer);
    }
    unreachable!()
}

/// Reads what stands after the tail's position in a worker, and ships it in the caller's thread.
pub(crate) fn ship_read<R: Threads + Wait + Sync, D: Disk + Send, P: Peer>(
    rt: &R,
    alloc: Global,
    tail: &mut Tail,
    disk: &mut D,
    peer: &mut P,
) -> Ending
    ensures { HasGone (IsTrue D.told) D.view D.faults P.has P.torn P.stays P.faults tail.old tail.new disk.old disk.new peer.old peer.new result }
{
    let Ok(
        Opened {
            ring,
            keys,
            key,
            consumer,
        },
    ) = Opened::new(alloc)
    else {
        return Ending::Refused(TailRefusal::Memory);
    };
    let gate = Gate::new();
    let mut reader = ReadingHalf {
        key,
        stage: Stage::Read,
    };
    let mut shipper = ShippingHalf {
        consumer,
        count: Count {
            entries: 0,
            unrecorded: 0,
        },
        has_failed: false,
    };
    go_on(
        rt,
        alloc,
        &ring,
        &gate,
        tail,
        disk,
        &mut reader,
        peer,
        &mut shipper,
    );
    let ReadingHalf { key, stage } = reader;
    let (count, has_failed) = settle(rt, ring, &gate, keys, key, peer, shipper);
    if has_failed {
        return Ending::PeerFailed;
    }
    match stage {
        Stage::AtEnd => Ending::AtEnd(count),
        Stage::Refused(e) => Ending::Refused(e),
        Stage::Read | Stage::Push(_) => unreachable!(),
    }
}
