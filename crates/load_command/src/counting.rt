//! How many cells a store was recovered to.

ghost use Rattle.std.specs.Prelude.{◌≡◌, ◌-◌, ◌^◌, min, sum_by};
ghost use Rattle.load_command.specs.Counted.{cells_of};

use run_command::region_replay::Replayed;

/// The cells of all regions; at 2^64-1 it stands.
pub fn count_cells(regions: &[Replayed]) -> u64
    ensures { result ≡ min (sum_by cells_of regions.now) (2 ^ 64 - 1) }
{
    let mut total = 0u64;
    for region in regions {
        total = total.saturating_add(region.base.cells.len() as u64);
    }
    total
}
