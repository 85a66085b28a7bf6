//! A server.

ghost use Rattle.std.specs.Prelude.{◌≡◌};

use crate::naming::ServerNaming;
use append_ring::RingKeys;
use disk_images::Disk;
use pass_calls::log_service::{Item, LogService};
use pass_calls::region_lock::Locked;
use std::marker::Model;
use std::sync::{Mutex, Wait};

/// A server of regions over one log, which threads share. Contracts see of which rings and berths its log is, and how many regions and
/// seats it has.
pub struct Server<
    'a,
    D: Disk,
    N: ServerNaming
        + pass_calls::region_lock::LockNaming
        + pass_calls::log_service::ServiceNaming
        + region_versions::VersionsNaming,
    R: Wait,
> {
    pub(crate) service: LogService<D, N>,
    // Region 1 first.
    pub(crate) regions: Vec<Mutex<Locked<N, &'a R>>>,
    // The places of the regions' keys of the ring, which stand in the regions' locks.
    pub(crate) places: RingKeys<Item>,
    // The handle that the regions' versions keep: with a field of its own its lifetime is known to be the handle's.
    pub(crate) rt: &'a R,
}

impl<
    'a,
    D: Disk,
    N: ServerNaming
        + pass_calls::region_lock::LockNaming
        + pass_calls::log_service::ServiceNaming
        + region_versions::VersionsNaming,
    R: Wait,
> Model for Server<'a, D, N, R> {
    ghost use Rattle.std.specs.Prelude.{length};
    ghost use Rattle.pass_calls.specs.log_service.Places.{ServiceId};
    ghost use Rattle.region_calls.specs.Served.{IsBegun, AreLocked};

    ghost Value = { ServiceId };

    ghost view = { λ s. s.service };

    ghost invariant = { λ s. IsBegun D.told N.name N.found N.handlers N.flushes N.ring N.lasts N.begun N.region_base s.service
        × AreLocked s.service (length s.regions.items) s.places };
}
