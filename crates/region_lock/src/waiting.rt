//! How a call waits for the log.

ghost use Rattle.std.specs.Prelude.{◌≤◌, ◌<◌, true};
ghost use Rattle.log_service.specs.Places.{IsSeatOf, IsLaterSeat};
ghost use Rattle.region_lock.specs.Puts.{IsLogged};

use disk_images::Disk;
use log_service::{LogSeat, LogService, ServiceNaming, Waited};
use std::sync::Wait;

/// Waits until the region's entries up to the number are durable. False where the log is broken below the number: the fault word was seen
/// set, and then the synced word was loaded below the number.
pub fn wait_logged<N: ServiceNaming, D: Disk, S: Wait>(
    rt: &S,
    service: &LogService<D, N>,
    seat: &mut LogSeat,
    region: u32,
    number: u64,
) -> bool
    requires region { (0 < region) × (region ≤ service.now.regions) }
    requires seat { IsSeatOf service.now seat.old }
    ensures logged { IsLogged true result region number seat.new.device.knows }
    ensures seat { IsSeatOf service.now seat.new }
    ensures later { IsLaterSeat seat.old seat.new }
{
    match service.wait_synced(rt, seat, region, number) {
        Waited::Synced => true,
        Waited::Broken => false,
    }
}
