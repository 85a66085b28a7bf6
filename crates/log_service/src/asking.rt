//! What a put does at the log, with what is counted of it.
ghost use Rattle.std.specs.Prelude.{◌≡◌, IsTrue, IsFalse, MatchResult};
ghost use Rattle.crossbeam_queue.specs.Passes.{view};
ghost use Rattle.append_ring.specs.Rules.{Follows, HasPushed};
ghost use Rattle.append_ring.specs.Parts.{last_pushed};
ghost use Rattle.log_berth.specs.Words.{looked};
ghost use Rattle.log_halves.specs.Items.{region_of, number_of, IsWholeItem};
ghost use Rattle.log_halves.specs.Moves.{IsGivenBack, HadItems};
ghost use Rattle.log_service.specs.Places.{IsSeatOf, IsLaterSeat};
ghost use Rattle.log_service.specs.Tallies.{asked_for, found_full, watched};

use crate::seats::LogSeat;
use crate::service::LogService;
use crate::tally::{Asked, Watch};
use append_ring::{Full, RingKey};
use disk_images::Disk;
use log_halves::{Item, ServiceNaming};
use log_trucks::Truck;
use std::sync::Wait;

impl<D: Disk, N: ServiceNaming> LogService<D, N> {
    /// Pushes a truck's entry under the pass of its region. Its number has to be one above the last one pushed under the pass. The truck comes
    /// back only where the ring held 1,024 items at one moment of the call, which is counted. It takes no memory.
    pub fn append<R: Wait>(
        &self,
        rt: &R,
        pass: &mut RingKey<Item>,
        watch: &mut Watch,
        truck: Box<Truck>,
    ) -> Result<(), Box<Truck>>
        requires ring { pass.old.pass.table_id ≡ self.now.ring }
        requires region { region_of (Item.Append truck) ≡ pass.old.region }
        requires whole { IsWholeItem (Item.Append truck) }
        requires follows { Follows number_of (last_pushed number_of pass.old) (Item.Append truck) }
        ensures same { (pass.new.pass.table_id ≡ pass.old.pass.table_id) × (pass.new.region ≡ pass.old.region) }
        ensures pushed { MatchResult result (λ _. HasPushed (view pass.old.pass) (Item.Append truck) (view pass.new.pass))
            (λ back. IsGivenBack pass.old pass.new (Item.Append truck) (Item.Append back)) }
        ensures counted { MatchResult result (λ _. watch.new ≡ watch.old) (λ _. watch.new ≡ found_full watch.old) }
    {
        match self.push(rt, pass, Item::Append(truck)) {
            Ok(()) => Ok(()),
            Err(
                Full {
                    item: Item::Append(truck),
                },
            ) => {
                watch.full = watch.full.saturating_add(1);
                Err(truck)
            }
            Err(
                Full {
                    item: Item::Sync { .. },
                },
            ) => unreachable!(),
        }
    }

    /// Asks that the entries of the pass's region up to the number be durable: pushes a sync request under the pass, which is counted. False
    /// only where the ring held 1,024 items at one moment of the call. It takes no memory.
    pub fn ask<R: Wait>(
        &self,
        rt: &R,
        pass: &mut RingKey<Item>,
        asked: &mut Asked,
        region: u32,
        number: u64,
    ) -> bool
        requires ring { pass.old.pass.table_id ≡ self.now.ring }
        requires region { region ≡ pass.old.region }
        ensures same { (pass.new.pass.table_id ≡ pass.old.pass.table_id) × (pass.new.region ≡ pass.old.region) }
        ensures pushed { IsTrue result → HasPushed (view pass.old.pass) (Item.Sync region number) (view pass.new.pass) }
        ensures full { IsFalse result → (view pass.new.pass ≡ view pass.old.pass) × HadItems 1024 (view pass.old.pass) }
        // What is counted was pushed.
        ensures counted { IsTrue result → asked.new ≡ asked_for region number asked.old }
        ensures uncounted { IsFalse result → asked.new ≡ asked.old }
    {
        match self.push(rt, pass, Item::Sync { region, number }) {
            Ok(()) => {
                asked.requests = asked.requests.saturating_add(1);
                asked.region = region;
                asked.number = number;
                true
            }
            Err(_) => false,
        }
    }

    /// Loads the fault word for a put, which is counted, and says whether the log is broken. Once a seat saw it set, it stays set. It takes
    /// no turn.
    pub fn watch(&self, seat: &mut LogSeat, watch: &mut Watch) -> bool
        requires { IsSeatOf self.now seat.old }
        ensures seat { IsSeatOf self.now seat.new }
        ensures later { IsLaterSeat seat.old seat.new }
        ensures broken { result ≡ seat.new.device.knows.broken }
        ensures looked { seat.new.device.knows.tally ≡ looked seat.old.device.knows.tally }
        ensures counted { watch.new ≡ watched result watch.old }
    {
        let broken = self.broken(seat);
        watch.looks = watch.looks.saturating_add(1);
        watch.broken = broken;
        broken
    }
}
