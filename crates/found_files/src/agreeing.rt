//! Entries in the order of regions and numbers, and the first two of one region and number that differ.

ghost use Rattle.std.specs.Prelude.{◌≡◌, ◌↔◌, ◌<◌, length, Contains, IsTrue, OnOk, MatchOption};
ghost use Rattle.found_files.specs.declared.found.FoundEntry.{FoundEntry as TheFound};
ghost use Rattle.found_files.specs.Sorted.{AreOrdered, AllAgree, IsFirstPair, IsOfSame, DifferAt, GoesOn};

use crate::found::FoundEntry;
use kv_cell::NoMemory;
use log_model::Damage;

/// Puts entries in the order of their regions, numbers and files.
pub(crate) fn sort_entries(entries: &mut Vec<FoundEntry>) -> Result<(), NoMemory>
    ensures same { OnOk result ((x : TheFound) → Contains entries.new.items x ↔ Contains entries.old.items x) }
    ensures ordered { OnOk result (AreOrdered entries.new.items) }
{
    entries.sort_by_key(|x| (x.entry.region, x.entry.number, x.name))?;
    Ok(())
}

/// The first two files, by region, number and names, that have entries of one region and number that differ; None where
/// there are none. The entries are in order.
pub(crate) fn first_disagreement(entries: &[FoundEntry]) -> Option<Damage>
    requires { AreOrdered entries.now }
    ensures { MatchOption result (AllAgree entries.now) (IsFirstPair entries.now) }
{
    let mut first = 0;
    for at in 1..entries.len() {
        match first_of_same(entries, first, at) {
            Some(next) => first = next,
            None => return Some(two(&entries[first], &entries[at])),
        }
    }
    None
}

/// Where an entry has another region or number than the first of those before it, its place; else that of the first. None
/// where they have one region and number, and differ.
fn first_of_same(entries: &[FoundEntry], first: usize, at: usize) -> Option<usize>
    requires { (first < at) × (at < length entries.now) }
    ensures { MatchOption result (DifferAt entries.now first at) (λ next. GoesOn entries.now first at next) }
{
    if !is_of_same(&entries[first], &entries[at]) {
        return Some(at);
    }
    if !entries[first].entry.is_same(&entries[at].entry) {
        return None;
    }
    Some(first)
}

/// Whether two entries have one region and number.
pub(crate) fn is_of_same(x: &FoundEntry, y: &FoundEntry) -> bool
    ensures { IsTrue result ↔ IsOfSame x.now y.now }
{
    x.entry.region == y.entry.region && x.entry.number == y.entry.number
}

fn two(x: &FoundEntry, y: &FoundEntry) -> Damage
    ensures { result ≡ Damage.Two x.now.name y.now.name x.now.entry.region x.now.entry.number }
{
    Damage::Two {
        first: x.name,
        second: y.name,
        region: x.entry.region,
        number: x.entry.number,
    }
}
