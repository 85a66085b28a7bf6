//! How many entries each region has.

ghost use Rattle.std.specs.Prelude.{◌≡◌, ◌+◌, ◌<◌, ◌≤◌, ◌^◌, slice_index, slice_set, vec_len, IfOk};
ghost use Rattle.found_files.specs.Counted.{AreCounts};

use crate::found::FoundEntry;
use kv_cell::NoMemory;
use log_model::REGIONS;
use std::alloc::Global;

/// How many of these entries each region from 0 to 64 has.
pub(crate) fn count_entries(alloc: Global, entries: &[FoundEntry]) -> Result<Vec<usize>, NoMemory>
    ensures { IfOk result (λ counts. AreCounts entries.now counts.items) }
{
    let mut counts = vec![in alloc; 0; REGIONS as usize + 1]?;
    for entry in entries {
        count_one(&mut counts, region_of(entry));
    }
    Ok(counts)
}

/// Counts one entry more of a region.
fn count_one(counts: &mut Vec<usize>, region: usize)
    requires there { region < vec_len counts.old }
    requires room { slice_index counts.old.items region < 2 ^ 63 }
    ensures { counts.new.items ≡ slice_set counts.old.items region (slice_index counts.old.items region + 1) }
{
    counts[region] += 1;
}

/// The region of an entry.
pub(crate) fn region_of(x: &FoundEntry) -> usize
    ensures { (result ≡ x.now.entry.region) × (result ≤ 64) }
{
    x.entry.region as usize
}
