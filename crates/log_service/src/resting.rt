//! How threads sleep until a turn of the device has ended.
ghost use Rattle.std.specs.Prelude.{◌≡◌, true};
ghost use Rattle.log_berth.specs.Words.{NoMore, without_turn};
ghost use Rattle.log_berth.specs.Turns.{turn_id};
ghost use Rattle.log_device.specs.Whole.{numbers_of};
ghost use Rattle.log_halves.specs.Halves.{broken_of};
ghost use Rattle.log_halves.specs.Numbers.{told_numbers};

use crate::service::LogService;
use disk_images::Disk;
use log_berth::{LogSeat as BerthSeat, Turn, Ware};
use log_halves::{DeviceHalf, ServiceNaming};
use std::sync::Wait;

impl<D: Disk, N: ServiceNaming> LogService<D, N> {
    /// How many turns of the device have ended, modulo 2^64.
    pub fn turns(&self) -> u64 {
        self.turns.now()
    }

    /// Sleeps until a turn of the device has ended since `turns` was so many. It may also return for no reason. For a caller
    /// that found a turn taken since then: whoever holds it will still end a turn of the device.
    pub fn rest<R: Wait>(&self, rt: &R, turns: u64) {
        self.turns.rest(rt, turns);
    }

    /// How often a put has ended or shown an edit of the region, modulo 2^64. Regions may share a count.
    pub fn shows(&self, region: u32) -> u64 {
        self.shows.of(region).now()
    }

    /// Sleeps until a put has ended or shown one since `shows` was so many. It may also return for no reason. For a put that waits for an edit before its
    /// own in its region: whoever ends or shows that one calls `tell_show` afterwards.
    pub fn rest_shows<R: Wait>(&self, rt: &R, region: u32, shows: u64) {
        self.shows.of(region).rest(rt, shows);
    }

    /// Wakes all who sleep until an edit of the region has ended, or was shown.
    pub fn tell_show(&self, region: u32) {
        self.shows.of(region).raise();
    }

    /// Wakes all who sleep, after a turn of the device has ended. Called by whoever gave the turn back.
    pub(crate) fn tell_turn(&self) {
        self.turns.raise();
        self.commits.end_all();
    }

    /// Gives the device's turn back, and tells who sleeps: of the puts, where the log isn't broken, those that the last commit had, and one
    /// more, which commits next. Which commit that was is read before the turn is given back.
    pub(crate) fn end_turn(&self, seat: &mut BerthSeat, turn: Turn<DeviceHalf<D, N>>)
        requires seat { seat.old.berth ≡ self.now.device }
        requires turn { (seat.old.knows.turn ≡ true) × (turn_id turn ≡ self.now.device) }
        requires durable { NoMore seat.old.knows.seen (told_numbers turn.ware.regions (numbers_of turn.ware.device)) }
        requires broken { broken_of turn.ware.device ≡ seat.old.knows.broken }
        ensures { (seat.new.berth ≡ seat.old.berth) × (seat.new.knows ≡ without_turn seat.old.knows) }
    {
        let is_odd = self.company.is_odd();
        let broken = turn.ware.broken();
        self.device.give(seat, turn);
        if broken {
            self.tell_turn();
            return;
        }
        self.turns.raise();
        self.commits.end(is_odd);
    }
}
