//! What a version's lines and point are.

ghost use Rattle.std.specs.Prelude.{◌≡◌};
ghost use Rattle.region_model.specs.Lines.{last_in};

use crate::front::Front;
use crate::naming::VersionsNaming;
use region_state::Version;
use std::marker::Model;

/// A beginning with its point: the last number of the lines, or the base's where there is none. Contracts see the
/// beginning.
#[derive(Drop)]
pub struct Sight<N: VersionsNaming> {
    front: Front<N>,
    point: u64,
}

impl<N: VersionsNaming> Model for Sight<N> {
    ghost use Rattle.std.specs.Prelude.{◌≡◌};
    ghost use Rattle.region_model.specs.Lines.{last_in};
    ghost use Rattle.region_versions.specs.Histories.{Beginning, coded_beginning};

    ghost Value = { Beginning };

    ghost coded = { coded_beginning };

    ghost view = { λ s. s.front };

    ghost invariant = { λ s. s.point ≡ last_in (N.region_base s.front.region) s.front.lines };
}

impl<N: VersionsNaming> Sight<N> {
    /// What a version of these lines shows.
    pub fn of(front: Front<N>, version: &Version) -> Sight<N>
        requires base { version.now.base ≡ N.region_base front.region }
        requires cut { version.now.cut ≡ front.lines }
        ensures { result ≡ front }
    {
        Sight {
            front,
            point: version.point(),
        }
    }

    /// The beginning.
    pub fn front(&self) -> &Front<N>
        ensures { result.now ≡ self.now }
    {
        &self.front
    }

    /// The point.
    pub fn point(&self) -> u64
        ensures { result ≡ last_in (N.region_base self.now.region) self.now.lines }
    {
        self.point
    }

    /// A copy.
    pub fn again(&self) -> Sight<N>
        ensures { result ≡ self.now }
    {
        Sight {
            front: self.front.again(),
            point: self.point,
        }
    }
}
