//! A store that was opened, for a server that has no name yet.

ghost use Rattle.std.specs.Prelude.{◌≡◌};
ghost use Rattle.region_calls.specs.Store.{disk_now, regions_of, handlers_of};

use crate::seeds::RegionSeeds;
use pass_calls::log_service::Rings;
use pass_calls::log_service::log_device::Device;
use std::snapshot::Snapshot;

/// An opened store: its device, the log's rings and the regions' parts, all with their memory; and the disk as it was found, and as it was
/// when a log was begun on it, for contracts alone.
pub struct OpenedStore<D> {
    pub(crate) device: Device<D>,
    pub(crate) rings: Rings,
    // Region 1 first.
    pub(crate) seeds: Vec<RegionSeeds>,
    pub(crate) regions: u32,
    pub(crate) handlers: u32,
    pub(crate) found: Snapshot<D>,
    pub(crate) split: Snapshot<D>,
}

impl<D> OpenedStore<D> {
    /// How many regions it was opened with, from 1 on.
    pub fn regions(&self) -> u32
        ensures { result ≡ regions_of self.now }
    {
        self.regions
    }

    /// For how many handlers it has hands, from 1 on.
    pub fn handlers(&self) -> u32
        ensures { result ≡ handlers_of self.now }
    {
        self.handlers
    }

    /// Gives the disk back as it is.
    pub fn into_disk(self) -> D
        ensures { result ≡ disk_now self }
    {
        let OpenedStore {
            device,
            rings: _rings,
            seeds: _seeds,
            regions: _,
            handlers: _,
            found: _found,
            split: _split,
        } = self;
        device.into_disk()
    }
}
