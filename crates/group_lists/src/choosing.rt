//! Of the groups' lists, each with a value for every region, the list in which each region is its own group's.

ghost use Rattle.std.specs.Prelude.{◌≡◌, ◌≢◌, ◌≤◌, ◌<◌, ◌+◌, ◌==◌, ℕ, cond, length, slice_get, Some, None, IfSome, IfNone};
ghost use Rattle.std.specs.Global.{Vec as TheVec};
ghost use Rattle.groups_model.specs.Groups.{group_of};
ghost use Rattle.group_lists.specs.Choosing.{IsTakenFrom, IsTakenAt, AreAsMany, AreChosen};
ghost use Rattle.group_lists.specs.Lists.{at_group};

use crate::lists::GroupList;
use std::mem;

/// Takes the value at this place, where its region is of this group.
fn take_one<T>(chosen: &mut [T], from: &mut [T], place: usize, group: u32, groups: u32)
    requires place { (place < length chosen.old) × (place < length from.old) }
    requires groups { 1 ≤ groups }
    ensures here { slice_get chosen.new place ≡ cond (group_of groups (place + 1) == group) (slice_get from.old place) (slice_get chosen.old place) }
    ensures others { (k : ℕ) → k ≢ place
        → (slice_get chosen.new k ≡ slice_get chosen.old k) × (slice_get from.new k ≡ slice_get from.old k) }
{
    if place % groups as usize + 1 == group as usize {
        mem::swap(&mut chosen[place], &mut from[place]);
    }
}

/// Takes a group's regions from its own list, which is as long.
fn take_in<T>(chosen: &mut [T], from: &mut [T], group: u32, groups: u32)
    requires groups { 1 ≤ groups }
    requires count { length from.old ≡ length chosen.old }
    ensures { IsTakenFrom groups group chosen.old from.old chosen.new }
{
    'taking: for place in 0..chosen.len() {
        take_one(chosen, from, place, group, groups);
    }
}

/// The same where there is such a group, and None where its list isn't there.
fn take_at<T: Drop>(
    chosen: &mut Vec<T>,
    from: Option<Option<Vec<T>>>,
    group: u32,
    groups: u32,
) -> Option<()>
    requires groups { 1 ≤ groups }
    requires count { (xs : TheVec T) → from ≡ Some (Some xs) → length xs.items ≡ length chosen.old.items }
    ensures some { IfSome result (λ _. (length chosen.new.items ≡ length chosen.old.items)
        × IsTakenAt groups group chosen.old.items from chosen.new.items) }
    ensures none { IfNone result (from ≡ Some None) }
{
    match from {
        None => Some(()),
        Some(None) => None,
        Some(Some(from)) => {
            let mut from = from;
            take_in(chosen.as_mut_slice(), from.as_mut_slice(), group, groups);
            Some(())
        }
    }
}

/// The list in which each region is its own group's, region 1 first, and None exactly where a group's list isn't there. All lists have the same
/// regions. It takes no memory.
pub fn choose<T: Drop>(groups: u32, lists: GroupList<Option<Vec<T>>>) -> Option<Vec<T>>
    requires groups { 1 ≤ groups }
    requires count { IfSome lists.first (λ xs. AreAsMany (length xs.items) lists) }
    ensures some { IfSome result (λ chosen. AreChosen groups lists chosen.items) }
    ensures none { IfNone result ((k : ℕ) × (at_group lists k ≡ Some None)) }
{
    let GroupList {
        first,
        second,
        third,
        fourth,
    } = lists;
    let mut chosen = first?;
    take_at(&mut chosen, second, 2, groups)?;
    take_at(&mut chosen, third, 3, groups)?;
    take_at(&mut chosen, fourth, 4, groups)?;
    Some(chosen)
}
