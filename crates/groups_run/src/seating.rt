//! Seats of the threads that help groups' logs are taken, and given back.

ghost use Rattle.std.specs.Prelude.{◌≡◌, ◌≤◌, ◌+◌, ℕ, [], vec_capacity};
ghost use Rattle.groups_run.specs.Helpers.{held, AreHelpersOf};
ghost use Rattle.group_calls.specs.Servers.{Servers};
ghost use Rattle.groups_run.specs.Seating.{AllHelp, seats_of};

use crate::helpers::GroupHelpers;
use group_calls::GroupHelper;

/// Takes the seats, at most eight. There is room for them, and it takes no memory.
pub fn take_seats(helpers: &mut GroupHelpers, seats: &mut Vec<GroupHelper>)
    requires none { (seats.old.items ≡ []) × (8 ≤ vec_capacity seats.old) }
    ensures taken { (k : ℕ) → held helpers.new k + seats_of k seats.new.items ≡ held helpers.old k }
    ensures of { (s : Servers) → AreHelpersOf s helpers.old → AreHelpersOf s helpers.new × AllHelp s seats.new.items }
{
    for _ in 0..8_usize {
        let Some(seat) = helpers.next() else {
            return;
        };
        seats.push_reserved(seat);
    }
}

/// Gives the seats back. It takes no memory.
pub fn give_seats(seats: Vec<GroupHelper>, helpers: &mut GroupHelpers)
    requires of { (s : Servers) × AreHelpersOf s helpers.old × AllHelp s seats.items }
    requires room { (k : ℕ) → held helpers.old k + seats_of k seats.items ≤ 2 }
    ensures given { (k : ℕ) → held helpers.new k ≡ held helpers.old k + seats_of k seats.items }
    ensures of { (s : Servers) → AreHelpersOf s helpers.old → AllHelp s seats.items → AreHelpersOf s helpers.new }
{
    for seat in seats {
        helpers.put_back(seat);
    }
}
