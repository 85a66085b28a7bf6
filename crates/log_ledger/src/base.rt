//! The numbers that regions begin with.

ghost use Rattle.std.specs.Prelude.{◌≡◌, length, map, IfOk};
ghost use Rattle.log_ledger.specs.Bases.{AreRegions, AreNumbersOf, mark_of};

use kv_cell::NoMemory;
use seq_accounting::{PLACES, RegionMark};
use std::alloc::Global;

/// A region that a device serves, with the numbers that it begins with.
#[derive(Clone, Copy, Debug, PartialEq, Eq)]
pub struct RegionBase {
    /// 1 to 64.
    pub region: u32,
    /// The sequence id up to which it is flushed, at most 2^48-1.
    pub flushed: u64,
    /// The number of its next store file, 1 to 2^63+1.
    pub next_store: u64,
}

/// What is flushed of each region, as the accounting takes it.
pub(crate) fn marks_of(alloc: Global, regions: &[RegionBase]) -> Result<Vec<RegionMark>, NoMemory>
    ensures { IfOk result (λ marks. marks.items ≡ map mark_of regions.now) }
{
    let mut marks = Vec::with_capacity(alloc, regions.len())?;
    for base in regions {
        marks.push(RegionMark {
            region: base.region,
            flushed: base.flushed,
        })?;
    }
    Ok(marks)
}

/// What is flushed of each region.
pub(crate) fn flushed_of(regions: &[RegionBase]) -> [u64; PLACES]
    requires { AreRegions regions.now }
    ensures numbers { AreNumbersOf (λ m. m.flushed) regions.now result }
    ensures wide { length result ≡ PLACES }
{
    let mut flushed = [0; PLACES];
    for base in regions {
        flushed[base.region as usize] = base.flushed;
    }
    flushed
}

/// The number of each region's next store file.
pub(crate) fn next_stores_of(regions: &[RegionBase]) -> [u64; PLACES]
    requires { AreRegions regions.now }
    ensures numbers { AreNumbersOf (λ m. m.next_store) regions.now result }
    ensures wide { length result ≡ PLACES }
{
    let mut next = [0; PLACES];
    for base in regions {
        next[base.region as usize] = base.next_store;
    }
    next
}
