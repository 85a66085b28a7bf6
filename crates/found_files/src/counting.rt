//! The stores that count.

ghost use Rattle.std.specs.Prelude.{◌≡◌, ◌≢◌, ◌≤◌, ◌<◌, ◌++◌, ◌∷◌, [], max, Contains, IfOk, OnOk, length, slice_index, slice_set, vec_len};
ghost use Rattle.found_files.specs.declared.found.FoundStore.{FoundStore as TheStore};
ghost use Rattle.found_files.specs.Counting.{AreCounting, AreFirstNumbers, counting_among};

use crate::found::FoundStore;
use kv_cell::NoMemory;
use std::alloc::Global;

/// The stores that count, in their order: those in whose place no store of the scope 1, of their region and with a greater
/// number, stands. No cell is copied.
pub fn counting_stores(alloc: Global, stores: Vec<FoundStore>) -> Result<Vec<FoundStore>, NoMemory>
    requires regions { (x : TheStore) → Contains stores.items x → x.name.region ≤ 64 }
    ensures { IfOk result (λ counting. AreCounting stores.items counting.items) }
{
    let first = first_numbers(alloc, &stores)?;
    let mut counting = Vec::with_capacity(alloc, stores.len())?;
    for store in stores {
        keep(&mut counting, store, &first)?;
    }
    Ok(counting)
}

/// The first number with which a store of each region counts: that of its last store of the scope 1, 0 where it has none.
/// The first of these is of region 0.
fn first_numbers(alloc: Global, stores: &[FoundStore]) -> Result<Vec<u64>, NoMemory>
    requires { (x : TheStore) → Contains stores.now x → x.name.region ≤ 64 }
    ensures { IfOk result (λ first. AreFirstNumbers stores.now first.items) }
{
    let mut first = vec![in alloc; 0; 65]?;
    for store in stores {
        raise(&mut first, store);
    }
    Ok(first)
}

/// Raises the number of the store's region to the store's, where the store is of the scope 1.
fn raise(first: &mut Vec<u64>, store: &FoundStore)
    requires { store.now.name.region < vec_len first.old }
    ensures replaces { store.now.text.scope ≡ 1 → first.new.items ≡ slice_set first.old.items store.now.name.region
        (max (slice_index first.old.items store.now.name.region) store.now.name.number) }
    ensures other { store.now.text.scope ≢ 1 → first.new.items ≡ first.old.items }
{
    if store.text.scope == 1 {
        let at = store.name.region as usize;
        first[at] = first[at].max(store.name.number);
    }
}

/// Adds a store that counts.
fn keep(counting: &mut Vec<FoundStore>, store: FoundStore, first: &[u64]) -> Result<(), NoMemory>
    requires { store.name.region < length first.now }
    ensures { OnOk result (counting.new.items ≡ counting.old.items ++ counting_among first.now (store ∷ [])) }
{
    if first[store.name.region as usize] <= store.name.number {
        counting.push(store)?;
    }
    Ok(())
}
