//! The keys of the regions that are not handed out.
ghost use Rattle.std.specs.Prelude.{◌≡◌, ◌-◌, Some, None, length, slice_get, slice_set, MatchOption, IsSome, IsSomeAnd};
ghost use Rattle.append_ring.specs.Parts.{first_there, without_first, AreOut};

use crate::pass::RingKey;
use std::marker::Model;

/// The keys of the regions. Contracts see a list with the key of each region, region 1 first, or None where it is handed out.
#[derive(Drop)]
pub struct RingKeys<T> {
    pub(crate) places: Vec<Option<RingKey<T>>>,
}

impl<T> Model for RingKeys<T> {
    ghost use Rattle.std.specs.Prelude.{List, Option};
    ghost use Rattle.append_ring.specs.declared.pass.RingKey.{RingKey};
    ghost use Rattle.append_ring.specs.Parts.{AreInPlace};

    ghost Value = { List (Option (RingKey T)) };

    ghost view = { λ p. p.places.items };

    ghost invariant = { λ p. AreInPlace 0 p.places.items };
}

// The first place whose key is not handed out.
fn first_place<T>(places: &[Option<RingKey<T>>]) -> Option<usize>
    ensures { MatchOption result (AreOut (length places.now) places.now)
        (λ place. AreOut place places.now × IsSomeAnd (slice_get places.now place) (λ o. IsSome o)) }
{
    for place in 0..places.len() {
        if places[place].is_some() {
            return Some(place);
        }
    }
    None
}

impl<T> RingKeys<T> {
    /// The key of the lowest region whose key is not handed out, or None exactly after the last.
    pub fn next(&mut self) -> Option<RingKey<T>>
        ensures given { result ≡ first_there self.old }
        ensures left { self.new ≡ without_first self.old }
    {
        let first = first_place(&self.places)?;
        self.places[first].take()
    }

    /// Takes a key back into its region's place, which is empty.
    pub fn put_back(&mut self, pass: RingKey<T>)
        requires { slice_get self.old (pass.region - 1) ≡ Some None }
        ensures { self.new ≡ slice_set self.old (pass.region - 1) (Some pass) }
    {
        let place = pass.region as usize - 1;
        self.places[place] = Some(pass);
    }
}
