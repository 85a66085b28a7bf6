//! Entries dealt to their regions, which puts those of one log into order without a comparison.

ghost use Rattle.std.specs.Prelude.{◌≡◌, ◌↔◌, ◌≤◌, ◌++◌, ◌∷◌, [], length, Contains, IfOk, OnOk, vec_len};
ghost use Rattle.std.specs.List.{flat_map};
ghost use Rattle.found_files.specs.declared.found.FoundEntry.{FoundEntry as TheFound};
ghost use Rattle.found_files.specs.Dealt.{entries_in, AddsTo, AreDealt, AreEmptyLists};

use crate::entry_counts::{count_entries, region_of};
use crate::found::FoundEntry;
use kv_cell::NoMemory;
use std::alloc::Global;

/// Some entries of one region, in the order in which they were found.
#[derive(Drop)]
pub(crate) struct RegionEntries {
    pub entries: Vec<FoundEntry>,
}

/// The same entries by regions: those of a lower one first, and those of one in the order that they had. None is moved
/// where they are so already.
// The contract says only that they are the same: the caller sorts them, which moves none where each region's are in order.
pub(crate) fn by_region(
    alloc: Global,
    entries: Vec<FoundEntry>,
) -> Result<Vec<FoundEntry>, NoMemory>
    ensures { IfOk result (λ dealt. (x : TheFound) → Contains dealt.items x ↔ Contains entries.items x) }
{
    if entries.is_sorted_by_key(|x| x.entry.region) {
        return Ok(entries);
    }
    let count = entries.len();
    let lists = deal(alloc, entries)?;
    join(alloc, lists, count)
}

/// The entries, each in the list of its region; the first list is of region 0.
fn deal(alloc: Global, entries: Vec<FoundEntry>) -> Result<Vec<RegionEntries>, NoMemory>
    ensures { IfOk result (λ lists. AreDealt entries.items lists.items) }
{
    let counts = count_entries(alloc, &entries)?;
    let mut lists = empty_lists(alloc, &counts)?;
    for entry in entries {
        add_to(&mut lists, entry)?;
    }
    Ok(lists)
}

/// A list without entries for each of these numbers, with room for so many.
fn empty_lists(alloc: Global, counts: &[usize]) -> Result<Vec<RegionEntries>, NoMemory>
    ensures { IfOk result (λ lists. AreEmptyLists (length counts.now) lists.items) }
{
    let mut lists = Vec::with_capacity(alloc, counts.len())?;
    for count in counts {
        let entries = Vec::with_capacity(alloc, *count)?;
        lists.push(RegionEntries { entries })?;
    }
    Ok(lists)
}

/// Adds an entry to the list of its region.
fn add_to(lists: &mut Vec<RegionEntries>, entry: FoundEntry) -> Result<(), NoMemory>
    requires { vec_len lists.old ≡ 65 }
    ensures in_range { entry.entry.region ≤ 64 }
    ensures added { OnOk result (AddsTo entry lists.old.items lists.new.items) }
{
    let region = region_of(&entry);
    add_entry(&mut lists[region], entry)
}

fn add_entry(list: &mut RegionEntries, entry: FoundEntry) -> Result<(), NoMemory>
    ensures added { OnOk result (list.new.entries.items ≡ list.old.entries.items ++ entry ∷ []) }
{
    list.entries.push(entry)?;
    Ok(())
}

/// The entries of these lists, of which there are so many, one list's after the other's.
fn join(alloc: Global, lists: Vec<RegionEntries>, count: usize) -> Result<Vec<FoundEntry>, NoMemory>
    ensures { IfOk result (λ all. all.items ≡ flat_map entries_in lists.items) }
{
    let mut all = Vec::with_capacity(alloc, count)?;
    for list in lists {
        append_list(&mut all, list)?;
    }
    Ok(all)
}

fn append_list(all: &mut Vec<FoundEntry>, list: RegionEntries) -> Result<(), NoMemory>
    ensures { OnOk result (all.new.items ≡ all.old.items ++ list.entries.items) }
{
    let RegionEntries { entries: mut more } = list;
    all.append(&mut more)?;
    Ok(())
}
