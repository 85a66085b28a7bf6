//! Up to which sequence ids each region is flushed.

ghost use Rattle.std.specs.Prelude.{◌≡◌, ◌≤◌, ◌<◌, max, ℕ, List, [], Contains, IfOk, OnOk, slice_index_or, slice_set, vec_len};
ghost use Rattle.found_files.specs.declared.found.FoundStore.{FoundStore as TheStore};
ghost use Rattle.wal_split.specs.declared.flushed.RegionFlushed.{RegionFlushed as TheFlushed};
ghost use Rattle.wal_split.specs.Flushed.{AreFlushed, IsFlushedBy, Raises, RaisesAt, alone_in, flushed_of, raised_in};

use found_files::FoundStore;
use kv_cell::NoMemory;
use std::alloc::Global;
use std::collections::BTreeMap;

/// Up to which sequence ids the stores of a region go that count.
#[derive(Drop)]
pub struct RegionFlushed {
    /// The last of the stores without a family, 0 where there is none: the whole region is flushed up to it.
    pub whole: u64,
    /// The last of the stores of each single family, by the family's bytes.
    pub alone: BTreeMap<Vec<u8>, u64>,
    /// The last of all, 0 where there is none.
    pub last: u64,
}

impl RegionFlushed {
    /// Of a region without a store. It takes no memory.
    pub fn none(alloc: Global) -> RegionFlushed
        ensures { (r : ℕ) → IsFlushedBy [] r result }
    {
        RegionFlushed {
            whole: 0,
            alone: BTreeMap::new(alloc),
            last: 0,
        }
    }

    /// The last flushed sequence id of a family.
    pub fn of(&self, family: &[u8]) -> u64
        ensures { result ≡ flushed_of self.now family.now }
    {
        self.whole.max(number_of(&self.alone, family))
    }

    /// Counts one store more: of this family, or of all where it is empty, up to this sequence id.
    fn raise(&mut self, alloc: Global, family: &[u8], to: u64) -> Result<(), NoMemory>
        ensures { OnOk result (Raises family.now to self.old self.new) }
    {
        self.last = self.last.max(to);
        if family.is_empty() {
            self.whole = self.whole.max(to);
            return Ok(());
        }
        raise_alone(alloc, &mut self.alone, family, to)
    }
}

/// The number of a family, 0 where it has none.
fn number_of(alone: &BTreeMap<Vec<u8>, u64>, family: &[u8]) -> u64
    ensures { result ≡ alone_in alone.now.entries family.now }
{
    match alone.get(family) {
        Some(to) => *to,
        None => 0,
    }
}

/// Gives a family this number, where its own is lower.
fn raise_alone(
    alloc: Global,
    alone: &mut BTreeMap<Vec<u8>, u64>,
    family: &[u8],
    to: u64,
) -> Result<(), NoMemory>
    ensures { OnOk result ((f : List ℕ) → alone_in alone.new.entries f ≡ raised_in family.now to alone.old.entries f) }
{
    if to <= number_of(alone, family) {
        return Ok(());
    }
    let key = family.to_vec(alloc)?;
    alone.insert(key, to)?;
    Ok(())
}

/// Up to which sequence ids each region is flushed by these stores, which count; the first is of region 0.
pub fn flushed_numbers(alloc: Global, stores: &[FoundStore]) -> Result<Vec<RegionFlushed>, NoMemory>
    requires { (x : TheStore) → Contains stores.now x → x.name.region ≤ 64 }
    ensures { IfOk result (λ flushed. AreFlushed stores.now flushed.items) }
{
    let mut flushed = none_flushed(alloc)?;
    for store in stores {
        raise_at(alloc, &mut flushed, store)?;
    }
    Ok(flushed)
}

/// The regions 0 to 64 without a store.
fn none_flushed(alloc: Global) -> Result<Vec<RegionFlushed>, NoMemory>
    ensures { IfOk result (λ flushed. AreFlushed [] flushed.items) }
{
    let mut flushed = Vec::with_capacity(alloc, 65)?;
    for _before in 0..65_usize {
        flushed.push(RegionFlushed::none(alloc))?;
    }
    Ok(flushed)
}

/// Counts one store more.
fn raise_at(
    alloc: Global,
    flushed: &mut Vec<RegionFlushed>,
    store: &FoundStore,
) -> Result<(), NoMemory>
    requires { store.now.name.region < vec_len flushed.old }
    ensures { OnOk result (RaisesAt store.now flushed.old.items flushed.new.items) }
{
    let region = store.name.region as usize;
    flushed[region].raise(alloc, store.text.family.as_slice(), store.text.to)
}
