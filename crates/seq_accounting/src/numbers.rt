//! Numbers by region.

ghost use Rattle.std.specs.Prelude.{◌≡◌, ◌<◌, ◌≤◌, length, All, AllPairs};
ghost use Rattle.seq_accounting.specs.Accounts.{AreApart, AreFlushed};

use crate::region::{PLACES, RegionMark};

/// Nothing of each region.
pub(crate) const NOTHING: [u64; PLACES] = [0; PLACES];

/// What the marks say is flushed of each region.
pub(crate) fn flushed_by(regions: &[RegionMark]) -> [u64; PLACES]
    requires within { All (λ m. m.region ≤ 64) regions.now }
    requires apart { AllPairs AreApart regions.now }
    ensures flushed { AreFlushed regions.now result }
    ensures wide { length result ≡ PLACES }
{
    let mut flushed = NOTHING;
    for mark in regions {
        flushed[mark.region as usize] = mark.flushed;
    }
    flushed
}
