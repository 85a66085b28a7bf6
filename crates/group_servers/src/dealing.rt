//! Passes and seats of a group's server are handed out and taken back, where there is one.

ghost use Rattle.std.specs.Prelude.{◌≡◌, ◌≢◌, ◌<◌, ◌+◌, Option, None, IfSome, IfNone};
ghost use Rattle.handler_threads.specs.log_service.Places.{ServiceId};
ghost use Rattle.group_servers.specs.Dealing.{ArePassesAt, IsLeftAt, IsNextAt, IsBackAt, IsRoomAt};
ghost use Rattle.group_servers.specs.Helping.{AreSeatsAt, IsSeatAt, seats_at};
ghost use Rattle.group_servers.specs.Passes.{IsPassAt};

use handler_threads::ServerName;
use handler_threads::region_calls::{Helpers, LogSeat, Pass, Passes};

/// The next handler's pass.
pub fn next_at<N: ServerName>(passes: &mut Option<Passes<N>>) -> Option<Pass<N>>
    requires of { (place : Option ServiceId) × ArePassesAt place N.handlers passes.old }
    requires left { IsLeftAt N.handlers passes.old }
    ensures next { IsNextAt passes.old result passes.new }
    ensures of { (place : Option ServiceId) → ArePassesAt place N.handlers passes.old
        → ArePassesAt place N.handlers passes.new × IsPassAt place result }
{
    match passes {
        None => None,
        Some(passes) => passes.next(),
    }
}

/// Takes a pass back.
pub fn put_back_at<N: ServerName>(passes: &mut Option<Passes<N>>, pass: Option<Pass<N>>)
    requires of { (place : Option ServiceId) × ArePassesAt place N.handlers passes.old × IsPassAt place pass }
    requires room { IsRoomAt passes.old }
    ensures back { IsBackAt passes.old pass passes.new }
    ensures of { (place : Option ServiceId) → ArePassesAt place N.handlers passes.old → IsPassAt place pass → ArePassesAt place N.handlers passes.new }
{
    match (passes, pass) {
        (Some(passes), Some(pass)) => passes.put_back(pass),
        (None, None) => {}
        _ => unreachable!(),
    }
}

/// A seat for a thread that helps its log.
pub fn next_seat_at(helpers: &mut Option<Helpers>) -> Option<LogSeat>
    ensures some { IfSome result (λ _. seats_at helpers.old ≡ seats_at helpers.new + 1) }
    ensures none { IfNone result ((seats_at helpers.old ≡ 0) × (seats_at helpers.new ≡ 0)) }
    ensures of { (place : Option ServiceId) → AreSeatsAt place helpers.old → AreSeatsAt place helpers.new × IfSome result (λ seat. IsSeatAt place seat) }
{
    match helpers {
        None => None,
        Some(helpers) => helpers.next(),
    }
}

/// Takes a seat back.
pub fn put_seat_back_at(helpers: &mut Option<Helpers>, seat: LogSeat)
    requires there { helpers.old ≢ None }
    requires room { seats_at helpers.old < 2 }
    ensures count { seats_at helpers.new ≡ seats_at helpers.old + 1 }
    ensures of { (place : Option ServiceId) → AreSeatsAt place helpers.old → IsSeatAt place seat → AreSeatsAt place helpers.new }
{
    match helpers {
        None => unreachable!(),
        Some(helpers) => helpers.put_back(seat),
    }
}
