//! What goes through the ring: readings, each of the one region, with no drawn number.

ghost use Rattle.std.specs.Prelude.{◌≡◌};

use crate::reading::Reading;
use append_ring::OfRegion;

impl OfRegion for Reading {
    ghost use Rattle.std.specs.Prelude.{None};
    ghost use Rattle.ship_queue.specs.Halves.{FitsItsLog};

    ghost place = { λ _. 1 };

    ghost number = { λ _. None };

    ghost is_whole = { FitsItsLog };

    ghost in_order = { λ _ _. Unit {0} };

    fn region(&self) -> u32 {
        1
    }

    fn drawn(&self) -> Option<u64> {
        None
    }

    ghost order_empty = { λ lasts. tt };

    ghost order_front = { λ lasts xs ys all. tt };
}
