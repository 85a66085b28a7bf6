//! What is flushed.

ghost use Rattle.std.specs.Prelude.{◌≡◌};
ghost use Rattle.seq_accounting.specs.Accounts.{flushed_by};

use crate::region::PLACES;
use crate::regions::RegionMarks;

/// What is flushed of each whole region, and of the families that were flushed alone.
pub(crate) struct FlushedNumbers {
    pub(crate) whole: [u64; PLACES],
    pub(crate) families: RegionMarks,
}

/// By hand, as that of kv_cell's `Octets`: the crates above call it.
impl Drop for FlushedNumbers {
    fn drop(self) {
        let FlushedNumbers {
            whole: _,
            families: _,
        } = self;
    }
}

impl FlushedNumbers {
    /// What is flushed of a family of a region.
    pub(crate) fn of(&self, region: u32, family: &[u8]) -> u64
        ensures { result ≡ flushed_by self.now.whole self.now.families region family.now }
    {
        let place = region as usize;
        let alone = self.families.get(region, family);
        let whole = if place < PLACES { self.whole[place] } else { 0 };
        whole.max(alone)
    }
}
