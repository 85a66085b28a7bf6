//! The device.

ghost use Rattle.std.specs.Prelude.{◌≡◌, ◌<◌, ◌≤◌, ◌^◌, Some, None, Option, get_or, IsTrue, ◌↔◌};
ghost use Rattle.log_file.specs.Open.{OpenLog};
ghost use Rattle.log_device.specs.Numbered.{IsNumbered};

use log_file::LogFile;
use log_ledger::Ledger;

/// One log on one disk: the current log file, the closed ones, the regions' store files, and their numbers.
#[derive(Drop)]
pub struct Device<D> {
    pub(crate) disk: D,
    // None from the first fault on
    pub(crate) log: Option<LogFile>,
    // some 6 KB, so that a device is small when it is moved
    pub(crate) ledger: Box<Ledger>,
    ghost numbered: { (file : OpenLog) → log ≡ Some file → IsNumbered file ledger.value },
}

impl<D> Device<D> {
    ghost use Rattle.log_device.specs.Whole.{disk_of, numbers_of, IsBroken};

    /// The number of the region's last entry whose commit answered Ok, or that up to which the region was flushed at the
    /// start. It never falls.
    pub fn synced(&self, region: u32) -> u64
        requires { region ≤ 64 }
        ensures number { result ≡ get_or (numbers_of self.now).synced region 0 }
        ensures limit { result < 2 ^ 48 }
    {
        self.ledger.synced(region)
    }

    /// The number that the region's last flush of all with Ok or Nothing gave, or that up to which it was flushed at the
    /// start. It never falls.
    pub fn stored(&self, region: u32) -> u64
        requires { region ≤ 64 }
        ensures number { result ≡ get_or (numbers_of self.now).stored region 0 }
        ensures synced { result ≤ get_or (numbers_of self.now).synced region 0 }
        ensures limit { result < 2 ^ 48 }
    {
        self.ledger.stored(region)
    }

    /// What `synced` was at the last roll with Ok or NothingToRoll, or the number up to which the region was flushed at the
    /// start. It never falls.
    pub fn closed(&self, region: u32) -> u64
        requires { region ≤ 64 }
        ensures number { result ≡ get_or (numbers_of self.now).closed region 0 }
        ensures synced { result ≤ get_or (numbers_of self.now).synced region 0 }
    {
        self.ledger.closed(region)
    }

    /// Whether a call has answered WriteFault. A broken device makes no disk call.
    pub fn broken(&self) -> bool
        ensures { IsTrue result ↔ IsBroken self.now }
    {
        self.log.is_none()
    }

    /// The disk, to look at.
    pub fn disk(&self) -> &D
        ensures { result.now ≡ disk_of self.now }
    {
        &self.disk
    }

    /// All its numbers.
    pub fn ledger(&self) -> &Ledger
        ensures { result.now ≡ numbers_of self.now }
    {
        &self.ledger
    }

    /// The disk as it is. What is staged is let go.
    pub fn into_disk(self) -> D
        ensures { result ≡ disk_of self }
    {
        self.disk
    }
}
