//! What a handler does while it waits.

ghost use Rattle.region_lock.specs.log_service.Places.{IsSeatOf, IsLaterSeat};

use disk_images::Disk;
use region_lock::log_service::{Helped, LogSeat, LogService, ServiceNaming};
use std::sync::Wait;
use std::thread;

/// Helps the log once: a consumer turn and a sync turn. Where another seat has one of the two it sleeps until a turn of the device has ended,
/// and where there was nothing to do the processor is given away.
pub(crate) fn help<N: ServiceNaming, D: Disk, S: Wait>(
    rt: &S,
    service: &LogService<D, N>,
    seat: &mut LogSeat,
)
    requires { IsSeatOf service.now seat.old }
    ensures seat { IsSeatOf service.now seat.new }
    ensures later { IsLaterSeat seat.old seat.new }
{
    let turns = service.turns();
    match service.help(rt, seat) {
        Helped::Something => {}
        Helped::Busy => service.rest(rt, turns),
        Helped::Nothing => thread::yield_now(),
    }
}
