//! The law, as the contract of a function that does nothing when it runs.

ghost use Rattle.shipped_logs.specs.Following.{ShippedBeginsTheChronicle};

use chronicle_model::{later_entries_are_behind, reached_stays, shipping_goes_on};
use ship_queue::part_ship_is_a_step;

/// Over any list of calls of a store's device and of calls that ship, each from the recorded position on, what was shipped, with
/// repeats taken out, begins the chronicle after the first position. It is put together from the laws of single calls.
pub fn shipped_begins_the_chronicle()
    ensures { ShippedBeginsTheChronicle }
{
    later_entries_are_behind();
    reached_stays();
    part_ship_is_a_step();
    shipping_goes_on();
}
