//! What the regions push.
ghost use Rattle.std.specs.Prelude.{◌≡◌};

use append_ring::OfRegion;
use log_trucks::Truck;

/// An entry on its way to the log, or the wish that a region's entries up to a number be durable.
#[derive(Drop)]
pub enum Item {
    Append(Box<Truck>),
    Sync { region: u32, number: u64 },
}

impl OfRegion for Item {
    ghost use Rattle.log_halves.specs.Items.{region_of, number_of, IsWholeItem};

    ghost place = { region_of };

    ghost number = { number_of };

    ghost is_whole = { IsWholeItem };

    ghost in_order = { λ _ _. Unit {0} };

    fn region(&self) -> u32 {
        match self {
            Item::Append(truck) => truck.region,
            Item::Sync { region, number: _ } => *region,
        }
    }

    fn drawn(&self) -> Option<u64> {
        match self {
            Item::Append(truck) => Some(truck.number),
            Item::Sync { .. } => None,
        }
    }

    ghost order_empty = { λ lasts. tt };

    ghost order_front = { λ lasts xs ys all. tt };
}
