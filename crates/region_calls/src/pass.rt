//! A handler's pass.

ghost use Rattle.std.specs.Prelude.{◌≡◌};
ghost use Rattle.region_calls.specs.Passes.{knows};

use pass_calls::log_service::LogSeat;
use pass_calls::region_lock::RegionPass;

/// What a handler calls its server by: its seat at the log, and of each region its hands and its viewer.
#[derive(Drop)]
pub struct Pass<N: pass_calls::region_lock::LockNaming + region_versions::VersionsNaming> {
    pub(crate) handler: u32,
    pub(crate) calls: u32,
    pub(crate) seat: LogSeat,
    // Region 1 first.
    pub(crate) regions: Vec<RegionPass<N>>,
}

impl<N: pass_calls::region_lock::LockNaming + region_versions::VersionsNaming> Pass<N> {
    /// The handler's number, from 1 on.
    pub fn handler(&self) -> u32
        ensures { result ≡ (knows self.now).handler }
    {
        self.handler
    }
}
