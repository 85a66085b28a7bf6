//! A law, as the contract of a function that does nothing when it runs.

ghost use Rattle.log_ledger.specs.Numbers.{FewStoresAreFew};

/// Where each new store file took a family of an entry that wasn't flushed, and sequence ids are below 2^48, a device has
/// fewer than 2^58 new store files of a region.
pub fn few_stores_are_few()
    ensures { FewStoresAreFew }
{}
