//! The memory of a server under its name.

ghost use Rattle.std.specs.Prelude.{◌≡◌, ◌≤◌, ◌<◌, [], length, IfOk, vec_capacity};
ghost use Rattle.region_calls.specs.Deals.{AreRooms};
ghost use Rattle.region_calls.specs.Hands.{AreDeals};
ghost use Rattle.region_calls.specs.Named.{AreNamedSeeds, AreFrom};
ghost use Rattle.region_calls.specs.Seeds.{AreSeeds};

use crate::hands::RegionHands;
use crate::seeds::RegionSeeds;
use crate::unlocked::{NamedRegion, Unlocked};
use kv_cell::NoMemory;
use pass_calls::region_lock::RegionPass;
use std::alloc::Global;
use std::sync::Wait;

/// All regions under their name, and the hands of their handlers.
#[derive(Drop)]
pub(crate) struct NamedRegions<
    N: pass_calls::region_lock::LockNaming
        + pass_calls::log_service::ServiceNaming
        + region_versions::VersionsNaming,
    R: Wait + Drop,
> {
    pub(crate) unlocked: Vec<Unlocked<N, R>>,
    pub(crate) hands: Vec<RegionHands<N>>,
}

/// Gives all regions their name.
pub(crate) fn name_regions<
    'a,
    N: pass_calls::region_lock::LockNaming
        + pass_calls::log_service::ServiceNaming
        + region_versions::VersionsNaming,
    R: Wait,
>(
    rt: &'a R,
    alloc: Global,
    seeds: Vec<RegionSeeds>,
    handlers: u32,
) -> Result<NamedRegions<N, &'a R>, NoMemory>
    requires seeds { AreSeeds handlers 1 seeds.items }
    requires handlers { (1 ≤ handlers) × (handlers ≤ 16) × (handlers ≡ N.handlers) }
    requires named { AreNamedSeeds N.desk N.spent N.book N.region_base N.lasts seeds.items }
    ensures unlocked { IfOk result (λ n. AreFrom 1 n.unlocked.items × (length n.unlocked.items ≡ length seeds.items)) }
    ensures hands { IfOk result (λ n. AreDeals 1 handlers n.hands.items × (length n.hands.items ≡ length seeds.items)) }
{
    let mut unlocked = Vec::with_capacity(alloc, seeds.len())?;
    let mut hands = Vec::with_capacity(alloc, seeds.len())?;
    'naming: for one in seeds {
        let named = NamedRegion::new(rt, alloc, one, handlers)?;
        let NamedRegion {
            unlocked: region,
            hands: dealt,
        } = named;
        unlocked.push_reserved(region);
        hands.push_reserved(dealt);
    }
    Ok(NamedRegions { unlocked, hands })
}

/// For each handler room for its hands of all regions.
pub(crate) fn make_rooms<N: pass_calls::region_lock::LockNaming + region_versions::VersionsNaming>(
    alloc: Global,
    regions: usize,
    handlers: u32,
) -> Result<Vec<Vec<RegionPass<N>>>, NoMemory>
    ensures { IfOk result (λ rooms. AreRooms regions rooms.items × (length rooms.items ≡ handlers)) }
{
    let mut rooms = Vec::with_capacity(alloc, handlers as usize)?;
    'making: for _handler in 0..handlers {
        let room = Vec::with_capacity(alloc, regions)?;
        rooms.push_reserved(room);
    }
    Ok(rooms)
}
