//! A region's entries, or their cells of one family, go into a store file.
ghost use Rattle.std.specs.Prelude.{◌≡◌, ◌≤◌, ◌<◌, ◌↔◌, ℕ, true, false, length, Err, IfOk, IfSome, IsErrOf};
ghost use Rattle.std.specs.Option.{option_map};
ghost use Rattle.log_service.specs.Places.{IsSeatOf, IsLaterSeat, written_of};
ghost use Rattle.log_service.specs.Turns.{HasMovedAll, SawAllChains, HasFlushedFamily};
ghost use Rattle.log_halves.specs.Ends.{HasFlushed, HadNothing};
ghost use Rattle.log_halves.specs.Counts.{flushed_by};

use crate::seats::LogSeat;
use crate::service::LogService;
use disk_images::Disk;
use log_berth::Ware;
use log_device::DeviceFlush;
use log_halves::ServiceNaming;
use std::alloc::Global;
use std::sync::Wait;

impl<D: Disk, N: ServiceNaming> LogService<D, N> {
    /// Takes both turns, moves and commits the region's entries up to `upto`, commits all else that was moved, flushes the family of the
    /// region (1 to 127 bytes), or all of them where none is given, and after Ok renames the closed logs that are wholly flushed. The number
    /// flushed is at or above `upto`, which was pushed, and the seat has then seen the region's synced word there, and where all families
    /// were flushed the stored word too. `WriteFault` exactly where the seat has then seen the fault.
    #[tactic(auto, using(crate::proofs::SeatLaws::later_trans))]
    pub fn flush<R: Wait>(
        &self,
        rt: &R,
        alloc: Global,
        seat: &mut LogSeat,
        region: u32,
        upto: u64,
        family: Option<&[u8]>,
    ) -> Result<u64, DeviceFlush>
        requires seat { IsSeatOf self.now seat.old }
        requires region { (0 < region) × (region ≤ self.now.regions) }
        requires family { IfSome family (λ f. (1 ≤ length f.now) × (length f.now ≤ 127)) }
        ensures seat { IsSeatOf self.now seat.new }
        ensures later { IsLaterSeat seat.old seat.new }
        ensures flushed { IfOk result
            (λ n. HasFlushed self.now.regions region (option_map (λ f. f.now) family.entry) upto n seat.old.device.knows seat.new.device.knows) }
        ensures nothing { (n : ℕ) → result ≡ Err (DeviceFlush.Nothing n)
            → HadNothing self.now.regions region (option_map (λ f. f.now) family.entry) upto n seat.new.device.knows }
        // What it answers, unless the log is broken, is of what the log kept of the family once all that was moved was committed.
        ensures family { seat.new.device.knows.broken ≡ false
            → HasFlushedFamily D.Disk N.ServiceNaming self.now.regions region (option_map (λ f. f.now) family.entry) result seat.new.device.knows }
        // Unless the log is broken, all that was moved is committed, and the seat has seen so.
        ensures moved { seat.new.device.knows.broken ≡ false → HasMovedAll N.ServiceNaming }
        ensures saw { seat.new.device.knows.broken ≡ false → SawAllChains D.Disk N.ServiceNaming seat.new.device.knows }
        // After Ok the flushes of this seat have written a store file more, and else none.
        ensures counted { written_of seat.new ≡ flushed_by result (written_of seat.old) }
        ensures fault { IsErrOf result DeviceFlush.WriteFault ↔ (seat.new.device.knows.broken ≡ true) }
    {
        let (mut mover, mut turn) = self.take_both(rt, seat);
        if turn.ware.broken() {
            self.device.give(&mut seat.device, turn);
            self.consumer.give(&mut seat.consumer, mover);
            self.tell_turn();
            return Err(DeviceFlush::WriteFault);
        }
        let rings = (&self.ring, &self.chain_ring);
        let flushed = mover.ware.flush(
            rt,
            alloc,
            rings,
            &mut turn.ware,
            region,
            upto,
            family,
            &mut seat.written,
        );
        self.give_both(seat, mover, turn);
        flushed
    }
}
