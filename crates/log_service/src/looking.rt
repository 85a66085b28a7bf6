//! A look at the fault word.
ghost use Rattle.std.specs.Prelude.{◌≡◌};
ghost use Rattle.log_berth.specs.Words.{looked};
ghost use Rattle.log_service.specs.Places.{IsSeatOf, IsLaterSeat};

use crate::seats::LogSeat;
use crate::service::LogService;
use disk_images::Disk;
use log_halves::ServiceNaming;

impl<D: Disk, N: ServiceNaming> LogService<D, N> {
    /// Loads the fault word, and says whether the log is broken. Once a seat saw it set, it stays set. It takes no turn.
    pub fn broken(&self, seat: &mut LogSeat) -> bool
        requires { IsSeatOf self.now seat.old }
        ensures seat { IsSeatOf self.now seat.new }
        ensures later { IsLaterSeat seat.old seat.new }
        ensures broken { result ≡ seat.new.device.knows.broken }
        ensures looked { seat.new.device.knows.tally ≡ looked seat.old.device.knows.tally }
        ensures same { (seat.new.consumer ≡ seat.old.consumer) × (seat.new.device.knows.seen ≡ seat.old.device.knows.seen) }
    {
        self.device.broken(&mut seat.device)
    }
}
