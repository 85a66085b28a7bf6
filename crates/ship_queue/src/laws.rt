//! The laws, each as the contract of a function that does nothing when it runs.

ghost use Rattle.ship_queue.specs.Shipping.{PartShipIsAStep, ShipIsAPartShip};

/// Where a call begins at the recorded position, what it ships is a step of those after which, with repeats taken out, what was
/// shipped begins the chronicle after the first position.
pub fn part_ship_is_a_step()
    ensures { PartShipIsAStep }
{}

/// So is what a call ships that its peer did not fail.
pub fn ship_is_a_part_ship()
    ensures { ShipIsAPartShip }
{}
