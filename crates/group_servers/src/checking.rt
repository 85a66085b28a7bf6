//! Whether a group's store has something of another group's region.

ghost use Rattle.std.specs.Prelude.{◌≡◌, ◌≤◌, ◌<◌, length, IsTrue, ◌↔◌, Some, IfSome, IfNone};
ghost use Rattle.group_servers.specs.Checking.{AreClear, IsWrongIn, IsFirstIn, AllAreClear, AllHave64};
ghost use Rattle.group_servers.specs.declared.recovering.FoundStore.{FoundStore as TheStore};

use crate::recovering::FoundStore;
use group_lists::{GroupList, group_in};
use region_replay::Replayed;

/// A region on the disk of another group.
#[derive(Clone, Copy)]
pub(crate) struct WrongRegion {
    pub(crate) disk: u32,
    pub(crate) region: u32,
}

/// Whether something was found of a region.
fn has_cells(found: &Replayed) -> bool
    ensures { IsTrue result ↔ (0 < found.now.base.last) }
{
    found.base.last > 0
}

/// The least region of another group of which something was found.
fn wrong_in(found: &[Replayed], group: u32, groups: u32) -> Option<u32>
    requires count { length found.now ≡ 64 }
    requires groups { 1 ≤ groups }
    ensures some { IfSome result (λ region. IsWrongIn groups group found.now region) }
    ensures none { IfNone result (AreClear groups group found.now 64) }
{
    let mut region: u32 = 0;
    'looking: for one in found {
        region += 1;
        if group_in(groups, region) != group && has_cells(one) {
            return Some(region);
        }
    }
    None
}

/// The same of a store.
fn wrong_of<D>(store: &FoundStore<D>, group: u32, groups: u32) -> Option<u32>
    requires count { length store.now.recovered ≡ 64 }
    requires groups { 1 ≤ groups }
    ensures some { IfSome result (λ region. IsWrongIn groups group store.now.recovered region) }
    ensures none { IfNone result (AreClear groups group store.now.recovered 64) }
{
    wrong_in(store.recovered.as_slice(), group, groups)
}

/// The same where there is one.
fn wrong_at<D>(store: &Option<FoundStore<D>>, group: u32, groups: u32) -> Option<u32>
    requires count { (s : TheStore D) → store.now ≡ Some s → length s.recovered ≡ 64 }
    requires groups { 1 ≤ groups }
    ensures some { IfSome result (λ region. (s : TheStore D) × (store.now ≡ Some s) × IsWrongIn groups group s.recovered region) }
    ensures none { IfNone result ((s : TheStore D) → store.now ≡ Some s → AreClear groups group s.recovered 64) }
{
    match store {
        None => None,
        Some(store) => wrong_of(store, group, groups),
    }
}

/// The first disk that has something of another group's region, and the least such region.
pub(crate) fn first_wrong<D>(stores: &GroupList<FoundStore<D>>, groups: u32) -> Option<WrongRegion>
    requires count { AllHave64 stores.now }
    requires groups { 1 ≤ groups }
    ensures some { IfSome result (λ w. IsFirstIn groups stores.now w.disk w.region) }
    ensures none { IfNone result (AllAreClear groups stores.now) }
{
    match wrong_of(&stores.first, 1, groups) {
        Some(region) => Some(WrongRegion { disk: 1, region }),
        None => match wrong_at(&stores.second, 2, groups) {
            Some(region) => Some(WrongRegion { disk: 2, region }),
            None => match wrong_at(&stores.third, 3, groups) {
                Some(region) => Some(WrongRegion { disk: 3, region }),
                None => match wrong_at(&stores.fourth, 4, groups) {
                    Some(region) => Some(WrongRegion { disk: 4, region }),
                    None => None,
                },
            },
        },
    }
}
