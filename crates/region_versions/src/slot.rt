//! What the two copies are: the version that is shown.

ghost use Rattle.std.specs.Prelude.{◌≡◌};
ghost use Rattle.std.specs.Arc.{arc_value};

use crate::book::Law;
use crate::page::Page;
use left_right::Absorb;
use logbook::Seen;
use region_state::{Line, Version};
use std::alloc::{AllocError, Global};
use std::sync::Arc;

/// A version with its region and the beginning of the history that it shows. It has no name, since the two copies may
/// have none: the rule says of which book it is.
#[derive(Drop)]
pub struct Showing {
    pub region: u32,
    pub version: Arc<Version, Global>,
    pub page: Page,
    pub ghost paged: { page.seen.log ≡ (arc_value version).cut },
}

/// What the two copies have in common. No value of it is made.
pub struct State {
    pub region: u32,
    pub version: Version,
    pub seen: Seen<Line, u64, Law>,
}

impl Absorb<Showing> for Showing {
    ghost use Rattle.region_versions.specs.Shown.{state_of};

    type State = State;

    ghost state = { λ s. state_of s };

    ghost applied = { λ s o. state_of o };

    fn absorb_first(&mut self, operation: &Showing, _other: &Showing) -> Result<(), AllocError> {
        match Arc::try_clone(&operation.version) {
            Ok(version) => {
                *self = Showing {
                    region: operation.region,
                    version,
                    page: operation.page.again(),
                };
                Ok(())
            }
            Err(_) => Err(AllocError),
        }
    }
}
