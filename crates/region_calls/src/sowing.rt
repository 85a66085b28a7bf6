//! The parts of a server that need no name, made of what an opening found.

ghost use Rattle.std.specs.Prelude.{◌≡◌, ◌≤◌, ◌<◌, ◌^◌, length, map, IfOk};
ghost use Rattle.crossbeam_queue.specs.Passes.{view};
ghost use Rattle.log_ledger.specs.Bases.{AreRegions, IsBase};
ghost use Rattle.pass_calls.specs.log_service.Begun.{AreNewParts};
ghost use Rattle.region_calls.specs.Seeds.{AreSeeds, base_of, lasts_of, bases_found, mark, marks_from, flushed_of};

use crate::seeds::RegionSeeds;
use kv_cell::NoMemory;
use pass_calls::log_service::Rings;
use pass_calls::log_service::log_device::RegionBase;
use region_replay::Replayed;
use std::alloc::Global;

/// With which numbers a device begins to serve a region.
fn mark_of(region: u32, found: &Replayed) -> RegionBase
    requires { (1 ≤ region) × (region ≤ 64) }
    ensures mark { result ≡ mark region found.now }
    ensures within { IsBase result }
    ensures last { result.flushed ≡ found.now.base.last }
{
    RegionBase {
        region,
        flushed: found.flushed,
        next_store: found.next_store,
    }
}

/// The same of regions from 1 on.
pub(crate) fn marks_of(alloc: Global, found: &[Replayed]) -> Result<Vec<RegionBase>, NoMemory>
    requires { length found.now ≤ 64 }
    ensures marks { IfOk result (λ marks. marks.items ≡ marks_from 1 found.now) }
    ensures regions { IfOk result (λ marks. AreRegions marks.items) }
    ensures flushed { IfOk result (λ marks. flushed_of marks.items ≡ lasts_of (bases_found found.now)) }
{
    let mut marks = Vec::with_capacity(alloc, found.len())?;
    for one in found {
        let region = marks.len() as u32 + 1;
        marks.push_reserved(mark_of(region, one));
    }
    Ok(marks)
}

/// The last sequence id of each region.
pub(crate) fn lasts_found(alloc: Global, found: &[Replayed]) -> Result<Vec<u64>, NoMemory>
    ensures { IfOk result (λ lasts. lasts.items ≡ lasts_of (bases_found found.now)) }
{
    let mut lasts = Vec::with_capacity(alloc, found.len())?;
    for one in found {
        lasts.push_reserved(one.base.last);
    }
    Ok(lasts)
}

/// The regions, from 1 on.
pub(crate) fn seeds_of(
    alloc: Global,
    found: Vec<Replayed>,
    handlers: u32,
) -> Result<Vec<RegionSeeds>, NoMemory>
    requires count { length found.items ≤ 64 }
    requires handlers { 1 ≤ handlers }
    ensures seeds { IfOk result (λ seeds. AreSeeds handlers 1 seeds.items) }
    ensures bases { IfOk result (λ seeds. map base_of seeds.items ≡ bases_found found.items) }
{
    let mut seeds = Vec::with_capacity(alloc, found.len())?;
    'sowing: for one in found {
        let region = seeds.len() as u32 + 1;
        let Replayed { base, .. } = one;
        seeds.push_reserved(RegionSeeds::new(alloc, region, base, handlers)?);
    }
    Ok(seeds)
}

/// All of a server that needs memory and no name.
#[derive(Drop)]
pub(crate) struct Sown {
    pub(crate) marks: Vec<RegionBase>,
    pub(crate) rings: Rings,
    pub(crate) seeds: Vec<RegionSeeds>,
}

/// Takes the memory for it.
pub(crate) fn sow(alloc: Global, found: Vec<Replayed>, handlers: u32) -> Result<Sown, NoMemory>
    requires count { (0 < length found.items) × (length found.items ≤ 64) }
    requires handlers { 1 ≤ handlers }
    ensures marks { IfOk result
        (λ s. (s.marks.items ≡ marks_from 1 found.items) × AreRegions s.marks.items
        × (flushed_of s.marks.items ≡ lasts_of (bases_found found.items))) }
    ensures seeds { IfOk result (λ s. AreSeeds handlers 1 s.seeds.items × (map base_of s.seeds.items ≡ bases_found found.items)) }
    ensures items { IfOk result
        (λ s. (s.rings.items.ring.capacity ≡ 1024)
        × AreNewParts s.rings.items.ring.id (lasts_of (bases_found found.items))
        s.rings.items.consumer.pass.table_id (view s.rings.items.consumer.pass) s.rings.items.passes) }
    ensures chains { IfOk result
        (λ s. (s.rings.chains.ring.capacity ≡ 2)
        × AreNewParts s.rings.chains.ring.id (lasts_of (bases_found found.items))
        s.rings.chains.consumer.pass.table_id (view s.rings.chains.consumer.pass) s.rings.chains.passes) }
{
    let marks = marks_of(alloc, &found)?;
    let lasts = lasts_found(alloc, &found)?;
    let Ok(rings) = Rings::new(alloc, lasts.as_slice()) else {
        return Err(NoMemory);
    };
    let seeds = seeds_of(alloc, found, handlers)?;
    Ok(Sown {
        marks,
        rings,
        seeds,
    })
}
