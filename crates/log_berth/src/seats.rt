//! Seats at a berth, which do not name the ware.
ghost use Rattle.std.specs.Prelude.{◌≡◌, ◌∷◌, ◌++◌, ◌<◌, [], length, MatchOption};
ghost use Rattle.log_berth.specs.Standing.{Standing, first_of};

use crate::known::Known;
use atomic_table::{Badge, Seat};
use std::marker::Model;

/// A seat at a berth. Contracts see of which berth it is, and what it knows.
pub struct LogSeat {
    pub(crate) badge: Badge<Known>,
}

impl Model for LogSeat {
    ghost use Rattle.std.specs.Prelude.{◌≡◌, ◌∷◌, []};
    ghost use Rattle.log_berth.specs.Standing.{Standing, first_of};

    ghost Value = { Standing };

    ghost view = { λ s. record { berth = s.badge.table_id; knows = first_of s.badge.views } };

    ghost invariant = { λ s. (s.badge.views ≡ first_of s.badge.views ∷ []) × ((first_of s.badge.views).parts ≡ 1) };
}

impl Drop for LogSeat {
    fn drop(self) {
        let LogSeat { badge: _ } = self;
    }
}

impl LogSeat {
    pub(crate) fn into_seat<W>(self) -> Seat<Option<W>, Known>
        ensures seat { (result.table_id ≡ self.berth) × (result.me ≡ (self.knows, [])) }
        ensures part { self.knows.parts ≡ 1 }
    {
        let LogSeat { badge } = self;
        badge.into_seat()
    }
}

/// The seats of a berth that are not handed out. Contracts see them as a list, and how many there is room for.
#[derive(Drop)]
pub struct LogSeats {
    pub(crate) seats: Vec<LogSeat>,
}

impl Model for LogSeats {
    ghost use Rattle.std.specs.Prelude.{vec_capacity};
    ghost use Rattle.log_berth.specs.Standing.{Bundle};

    ghost Value = { Bundle };

    ghost view = { λ s. record { seats = s.seats.items; room = vec_capacity s.seats } };
}

impl LogSeats {
    /// A seat, or None exactly after the last.
    pub fn next(&mut self) -> Option<LogSeat>
        ensures { MatchOption result ((self.old.seats ≡ []) × (self.new ≡ self.old))
            (λ seat. (self.old.seats ≡ self.new.seats ++ seat ∷ []) × (self.new.room ≡ self.old.room)) }
    {
        self.seats.pop()
    }

    /// Takes a seat back.
    pub fn put_back(&mut self, seat: LogSeat)
        requires { length self.old.seats < self.old.room }
        ensures { (self.new.seats ≡ self.old.seats ++ seat ∷ []) × (self.new.room ≡ self.old.room) }
    {
        self.seats.push_reserved(seat);
    }
}
