//! The seats of a service.
ghost use Rattle.std.specs.Prelude.{◌≡◌, ◌<◌, [], length, MatchOption};
ghost use Rattle.log_service.specs.Bundles.{IsBehind, IsHandedOut};
ghost use Rattle.log_service.specs.Tallies.{no_tally};

use crate::tally::PutTally;
use log_berth::{LogSeat as BerthSeat, LogSeats as BerthSeats};
use log_halves::{Tallies, Written};

/// Two seats, one of the consumer's berth and one of the device's, with what the flushes and rolls of both have written since they were
/// handed out.
#[derive(Drop)]
pub struct LogSeat {
    pub consumer: BerthSeat,
    pub device: BerthSeat,
    pub(crate) written: Written,
}

/// The seats that are not handed out, and what makes their tallies, which is nowhere else.
#[derive(Drop)]
pub struct LogSeats {
    pub(crate) consumers: BerthSeats,
    pub(crate) devices: BerthSeats,
    pub(crate) tallies: Tallies,
    ghost pairs: { length consumers.seats ≡ length devices.seats },
}

impl LogSeats {
    /// A seat, or None exactly after the last. It takes no memory.
    pub fn next(&mut self) -> Option<LogSeat>
        ensures { MatchOption result ((self.old.devices.seats ≡ []) × (self.new ≡ self.old))
            (λ seat. IsHandedOut self.old.consumers self.new.consumers self.old.devices self.new.devices seat) }
    {
        let consumer = self.consumers.next();
        let device = self.devices.next();
        match (consumer, device) {
            (Some(consumer), Some(device)) => {
                Some(LogSeat {
                    consumer,
                    device,
                    written: self.tallies.tally(),
                })
            }
            _ => None,
        }
    }

    /// What is counted of the puts of a pass into one region, which has made none yet. Who has these seats makes a pass; a put has none of
    /// them, and so no tally but its pass's.
    pub fn put_tally(&self) -> PutTally
        ensures { result ≡ no_tally }
    {
        PutTally::none()
    }

    /// Takes a seat back. It takes no memory.
    pub fn put_back(&mut self, seat: LogSeat)
        requires room { (length self.old.consumers.seats < self.old.consumers.room) × (length self.old.devices.seats < self.old.devices.room) }
        ensures back { IsBehind self.old.consumers self.new.consumers self.old.devices self.new.devices seat }
        ensures rooms { (self.new.consumers.room ≡ self.old.consumers.room) × (self.new.devices.room ≡ self.old.devices.room) }
    {
        let LogSeat {
            consumer,
            device,
            written: _,
        } = seat;
        self.consumers.put_back(consumer);
        self.devices.put_back(device);
    }
}
