//! What an opening finds of a region, and what it makes of it.

ghost use Rattle.std.specs.Prelude.{◌≡◌};

use disk_images::Name;
use entry_frame::Entry;
use kv_cell::NumberedCells;
use mem_segments::Base;
use std::marker::Model;
use wal_split::RegionFlushed;

/// What stands in the files of one region, once the logs were split.
#[derive(Drop)]
pub struct RegionFiles {
    /// 1 to 64.
    pub region: u32,
    /// The cells of its store files that count, in the order of the files' numbers.
    pub stored: NumberedCells,
    /// The entries with a cell above what is flushed of the cell's family, each once.
    pub unflushed: Vec<Entry>,
    /// Up to which sequence ids it is flushed.
    pub flushed: RegionFlushed,
    /// A number above those of all its store files.
    pub next_store: u64,
    /// The names of its edits files.
    pub edits: Vec<Name>,
}

/// A region as it was recovered.
#[derive(Drop)]
pub struct Replayed {
    /// Its cells, and the last sequence id that was seen.
    pub base: Base,
    /// The last flushed sequence id, of the whole region and so of each family: the last one seen.
    pub flushed: u64,
    /// A number above those of all its store files, at most 2^63+1.
    pub next_store: u64,
}

impl Model for Replayed {
    ghost use Rattle.region_replay.specs.Ready.{Found, IsWithin, coded_found};

    ghost Value = { Found };

    ghost coded = { coded_found };

    ghost view = { λ x. record { base = x.base; flushed = x.flushed; next_store = x.next_store } };

    ghost invariant = { λ x. IsWithin (record { base = x.base; flushed = x.flushed; next_store = x.next_store }) };
}

/// The regions 1 to 64 in order, as they were recovered.
#[derive(Drop)]
pub struct Recovered {
    regions: Vec<Replayed>,
}

impl Model for Recovered {
    ghost use Rattle.std.specs.Prelude.{List};
    ghost use Rattle.std.specs.Coded.{coded_list};
    ghost use Rattle.region_replay.specs.Ready.{Found, coded_found};

    ghost Value = { List Found };

    ghost coded = { coded_list coded_found };

    ghost view = { λ x. x.regions.items };
}

impl Recovered {
    /// These regions as the whole.
    pub(crate) fn of(regions: Vec<Replayed>) -> Recovered
        ensures { result ≡ regions.items }
    {
        Recovered { regions }
    }

    /// The regions in order.
    pub fn into_regions(self) -> Vec<Replayed>
        ensures { result.items ≡ self }
    {
        self.regions
    }

    pub fn as_slice(&self) -> &[Replayed]
        ensures { result.now ≡ self.now }
    {
        &self.regions
    }
}
