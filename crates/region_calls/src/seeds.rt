//! Of what a region is made.

ghost use Rattle.std.specs.Prelude.{◌≡◌, ◌≤◌, ◌<◌, ◌^◌, [], IfOk};
ghost use Rattle.std.specs.Arc.{arc_value};
ghost use Rattle.hand_register.specs.Desks.{AreParts};
ghost use Rattle.region_state.specs.States.{IsUpTo};
ghost use Rattle.region_calls.specs.Seeds.{IsSeed};

use hand_register::{Desk, DeskParts};
use kv_cell::NoMemory;
use mem_segments::Base;
use region_state::{Line, RegionState, Version};
use region_versions::NewHistory;
use std::alloc::Global;
use std::sync::Arc;

/// A region without a name: its state, its first version, the book of its history, and the desks of its handlers' lines and
/// of the numbers that they are told as spent.
#[derive(Drop)]
pub struct RegionSeeds {
    pub(crate) state: RegionState,
    pub(crate) version: Arc<Version, Global>,
    pub(crate) opened: NewHistory,
    pub(crate) desk: DeskParts<Line>,
    pub(crate) spent: DeskParts<u64>,
}

/// A region's state with no edit since its base, and its first version.
fn first_of(
    alloc: Global,
    region: u32,
    base: Base,
) -> Result<(RegionState, Arc<Version, Global>), NoMemory>
    requires limit { base.last < 2 ^ 48 }
    requires upto { IsUpTo base.content base.last }
    ensures state { IfOk result (λ r. (r.0.region ≡ region) × (r.0.base ≡ base) × (r.0.lines ≡ [])) }
    ensures version { IfOk result (λ r. ((arc_value r.1).base ≡ base) × ((arc_value r.1).cut ≡ [])) }
{
    let mut state = RegionState::new(alloc, region, base)?;
    let version = state.next_version(alloc)?;
    Ok((state, version))
}

/// The desks of a region's lines and of the numbers that are told as spent, for so many handlers.
fn desks_of(alloc: Global, handlers: u32) -> Result<(DeskParts<Line>, DeskParts<u64>), NoMemory>
    requires handlers { 1 ≤ handlers }
    ensures parts { IfOk result (λ r. AreParts r.0 handlers × AreParts r.1 handlers) }
{
    let Ok(desk) = Desk::new(alloc, handlers) else {
        return Err(NoMemory);
    };
    let Ok(spent) = Desk::new(alloc, handlers) else {
        return Err(NoMemory);
    };
    Ok((desk, spent))
}

impl RegionSeeds {
    /// A region with no edit since its base, for so many handlers.
    pub(crate) fn new(
        alloc: Global,
        region: u32,
        base: Base,
        handlers: u32,
    ) -> Result<RegionSeeds, NoMemory>
        requires limit { base.last < 2 ^ 48 }
        requires upto { IsUpTo base.content base.last }
        requires handlers { 1 ≤ handlers }
        ensures seed { IfOk result (λ s. IsSeed handlers region s) }
        ensures base { IfOk result (λ s. s.state.base ≡ base) }
    {
        let first = first_of(alloc, region, base)?;
        let desks = desks_of(alloc, handlers)?;
        let (state, version) = first;
        let (desk, spent) = desks;
        Ok(RegionSeeds {
            state,
            version,
            opened: NewHistory::new(),
            desk,
            spent,
        })
    }
}
