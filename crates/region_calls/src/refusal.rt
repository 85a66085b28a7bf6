//! Why a store can't be opened for a server.

ghost use Rattle.std.specs.Prelude.{◌≡◌};
ghost use Rattle.region_calls.specs.Opening.{why_of, why_not};

use log_model::Damage;
use pass_calls::log_service::log_device::DeviceWhy;
use region_replay::found_files::SplitRefusal;

/// Why a store isn't opened.
#[derive(Clone, Copy, Debug, PartialEq, Eq)]
pub enum StartWhy {
    Memory,
    /// A disk call failed.
    DiskFault,
    /// What was found is damaged so.
    Damaged(Damage),
}

/// A store that could not be opened. The disk comes back.
#[derive(Drop)]
pub struct StartRefusal<D> {
    pub why: StartWhy,
    pub disk: D,
}

/// The same of what recovers a store.
pub(crate) fn split_why(refusal: SplitRefusal) -> StartWhy
    ensures { result ≡ why_of refusal }
{
    match refusal {
        SplitRefusal::Memory => StartWhy::Memory,
        SplitRefusal::DiskFault => StartWhy::DiskFault,
        SplitRefusal::Damaged(damage) => StartWhy::Damaged(damage),
    }
}

/// The same of what begins a log on it.
pub(crate) fn device_why(why: DeviceWhy) -> StartWhy
    ensures { result ≡ why_not why }
{
    match why {
        DeviceWhy::Memory => StartWhy::Memory,
        DeviceWhy::DiskFault => StartWhy::DiskFault,
    }
}
