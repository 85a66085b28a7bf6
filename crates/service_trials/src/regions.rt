//! The regions of a service of sixteen, and its rings.

ghost use Rattle.std.specs.Prelude.{◌≡◌, replicate};
ghost use Rattle.crossbeam_queue.specs.Passes.{view};
ghost use Rattle.log_service.specs.Begun.{AreNewParts};

use log_ledger::RegionBase;
use log_service::Rings;
use std::alloc::Global;
use std::process::Abort;

/// Regions 1 to 16, of which nothing is stored.
pub(crate) const REGIONS: [RegionBase; 16] = [
    RegionBase {
        region: 1,
        flushed: 0,
        next_store: 1,
    },
    RegionBase {
        region: 2,
        flushed: 0,
        next_store: 1,
    },
    RegionBase {
        region: 3,
        flushed: 0,
        next_store: 1,
    },
    RegionBase {
        region: 4,
        flushed: 0,
        next_store: 1,
    },
    RegionBase {
        region: 5,
        flushed: 0,
        next_store: 1,
    },
    RegionBase {
        region: 6,
        flushed: 0,
        next_store: 1,
    },
    RegionBase {
        region: 7,
        flushed: 0,
        next_store: 1,
    },
    RegionBase {
        region: 8,
        flushed: 0,
        next_store: 1,
    },
    RegionBase {
        region: 9,
        flushed: 0,
        next_store: 1,
    },
    RegionBase {
        region: 10,
        flushed: 0,
        next_store: 1,
    },
    RegionBase {
        region: 11,
        flushed: 0,
        next_store: 1,
    },
    RegionBase {
        region: 12,
        flushed: 0,
        next_store: 1,
    },
    RegionBase {
        region: 13,
        flushed: 0,
        next_store: 1,
    },
    RegionBase {
        region: 14,
        flushed: 0,
        next_store: 1,
    },
    RegionBase {
        region: 15,
        flushed: 0,
        next_store: 1,
    },
    RegionBase {
        region: 16,
        flushed: 0,
        next_store: 1,
    },
];

/// The rings of a service of sixteen regions.
pub(crate) fn sixteen_rings<R: Abort>(rt: &R, alloc: Global) -> Rings
    ensures items { (result.items.ring.capacity ≡ 1024)
        × AreNewParts result.items.ring.id (replicate 16 0) result.items.consumer.pass.table_id (view result.items.consumer.pass) result.items.passes }
    ensures chains { (result.chains.ring.capacity ≡ 2)
        × AreNewParts result.chains.ring.id (replicate 16 0) result.chains.consumer.pass.table_id (view result.chains.consumer.pass) result.chains.passes }
{
    match Rings::new(alloc, &[0; 16]) {
        Ok(rings) => rings,
        Err(_) => panic!(rt; "memory is ample"),
    }
}
