//! A roll, as a handler calls it.

ghost use Rattle.std.specs.Prelude.{◌≡◌, false};
ghost use Rattle.region_lock.specs.log_service.Places.{IsSeatOf, written_of};
ghost use Rattle.region_lock.specs.log_service.Turns.{HasRolledFile};
ghost use Rattle.region_lock.specs.log_service.Counts.{rolled_by};
ghost use Rattle.region_lock.specs.Answers.{roll_answer};
ghost use Rattle.region_lock.specs.Calls.{RollsAt};

use disk_images::Disk;
use region_lock::log_service::log_device::{RollRefusal, Rolled};
use region_lock::log_service::{LogSeat, LogService, ServiceNaming};
use std::alloc::Global;
use std::sync::Wait;

/// The log's roll. After it, and where there is nothing to roll, the seat has seen each region's closed word at or above the synced word
/// that it had seen before.
pub fn roll_in<N: ServiceNaming, D: Disk, S: Wait>(
    rt: &S,
    alloc: Global,
    service: &LogService<D, N>,
    seat: &mut LogSeat,
) -> Result<Rolled, RollRefusal>
    requires seat { IsSeatOf service.now seat.old }
    ensures rolls { RollsAt service.now.regions (roll_answer result) seat.old seat.new }
    // Unless the log is broken, what it answers is of the file that the log had.
    ensures rolled { seat.new.device.knows.broken ≡ false → HasRolledFile D.Disk N.ServiceNaming service.now.regions result seat.new.device.knows }
    // After Ok the rolls of this seat have closed a log file more, and else none.
    ensures counted { written_of seat.new ≡ rolled_by result (written_of seat.old) }
    ensures seat { IsSeatOf service.now seat.new }
{
    // For the proof, which goes by the branches: each is answered as it came.
    match service.roll(rt, alloc, seat) {
        Ok(rolled) => Ok(rolled),
        Err(refusal) => Err(refusal),
    }
}
