//! The seats of passes and of those that help are given back.

ghost use Rattle.std.specs.Prelude.{◌≡◌, ◌≤◌, ◌+◌, ◌++◌, ℕ, length};
ghost use Rattle.pass_calls.specs.log_service.Places.{ServiceId};
ghost use Rattle.region_calls.specs.Backs.{AreSeats, device_seats, seats_of};
ghost use Rattle.region_calls.specs.Deals.{AllOf, AreSeatsOf};

use crate::pass::Pass;
use pass_calls::log_service::{LogSeat, LogSeats};

/// The seats of passes.
pub(crate) fn give_passes<N: pass_calls::region_lock::LockNaming + region_versions::VersionsNaming>(
    seats: &mut LogSeats,
    passes: Vec<Pass<N>>,
    more: u32,
)
    requires of { (the : ServiceId) × AreSeats the (length passes.items + more) seats.old × AllOf the passes.items }
    ensures of { (the : ServiceId) → AreSeats the (length passes.items + more) seats.old → AllOf the passes.items → AreSeats the more seats.new }
    ensures back { seats.new.devices.seats ≡ seats.old.devices.seats ++ device_seats (seats_of passes.items) }
{
    // The contract alone uses it.
    let _ = more;
    'giving: for pass in passes {
        let Pass {
            handler: _,
            calls: _,
            seat,
            regions: _,
        } = pass;
        seats.put_back(seat);
    }
}

/// The seats of those that help.
pub(crate) fn give_seats(seats: &mut LogSeats, helpers: Vec<LogSeat>)
    requires of { (the : ServiceId) × AreSeats the (length helpers.items) seats.old × AreSeatsOf the helpers.items }
    ensures of { (the : ServiceId) → AreSeats the (length helpers.items) seats.old → AreSeatsOf the helpers.items → AreSeats the 0 seats.new }
    ensures back { seats.new.devices.seats ≡ seats.old.devices.seats ++ device_seats helpers.items }
{
    'giving: for seat in helpers {
        seats.put_back(seat);
    }
}
