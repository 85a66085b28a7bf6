//! What some stores cover.

ghost use Rattle.std.specs.Prelude.{◌≤◌, length};
ghost use Rattle.store_compact.specs.Plan.{AreCovered};

use found_files::FoundStore;

/// The least and the greatest sequence id that these stores cover. There is at least one store.
pub(crate) fn range_of(stores: &[FoundStore]) -> (u64, u64)
    requires { 1 ≤ length stores.now }
    ensures { AreCovered stores.now result.0 result.1 }
{
    let mut from = stores[0].text.from;
    let mut to = stores[0].text.to;
    for store in stores {
        from = from.min(store.text.from);
        to = to.max(store.text.to);
    }
    (from, to)
}
