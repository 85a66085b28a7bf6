//! Passes are handed to handlers, and come back.

ghost use Rattle.std.specs.Prelude.{◌≡◌, ◌≤◌, [], map, vec_len, vec_capacity};
ghost use Rattle.embedded.specs.log_service.Places.{ServiceId};
ghost use Rattle.embedded.specs.region_calls.Deals.{passes_out, passes_back, ArePassesOf};
ghost use Rattle.embedded_run.specs.Seats.{AreTaken, AllAt, pass_in, handler_in};

use crate::seated::Seated;
use embedded::region_calls::{Pass, Passes};

/// Gives each handler its pass, the first one that of number 1. There is room for them, and it takes no memory.
pub(crate) fn seat_all<
    N: embedded::region_lock::LockNaming + region_versions::VersionsNaming,
    H: Drop,
>(handlers: Vec<H>, passes: &mut Passes<N>, seated: &mut Vec<Seated<Pass<N>, H>>)
    requires none { (seated.old.items ≡ []) × (vec_len handlers ≤ vec_capacity seated.old) }
    requires of { (place : ServiceId) × ArePassesOf place N.handlers passes.old }
    requires passes { (passes_out passes.old ≡ 0) × (vec_len handlers ≡ N.handlers) }
    ensures taken { AreTaken 1 handlers.items seated.new.items }
    ensures out { passes_out passes.new ≡ N.handlers }
    ensures back { passes_back passes.new ≡ passes_back passes.old }
    ensures of { (place : ServiceId) → ArePassesOf place N.handlers passes.old → ArePassesOf place N.handlers passes.new × AllAt place seated.new.items }
{
    for handler in handlers {
        let Some(pass) = passes.next() else {
            unreachable!()
        };
        seated.push_reserved(Seated {
            pass: Some(pass),
            handler,
        });
    }
}

/// Gives the passes back, and keeps the handlers. There is room for them, and it takes no memory.
pub(crate) fn give_back<
    N: embedded::region_lock::LockNaming + region_versions::VersionsNaming,
    H: Drop,
>(seated: Vec<Seated<Pass<N>, H>>, passes: &mut Passes<N>, handlers: &mut Vec<H>)
    requires none { (handlers.old.items ≡ []) × (vec_len seated ≤ vec_capacity handlers.old) }
    requires of { (place : ServiceId) × ArePassesOf place N.handlers passes.old × AllAt place seated.items }
    requires passes { (passes_out passes.old ≡ N.handlers) × (passes_back passes.old ≡ []) × (vec_len seated ≡ N.handlers) }
    ensures back { passes_back passes.new ≡ map pass_in seated.items }
    ensures out { passes_out passes.new ≡ N.handlers }
    ensures of { (place : ServiceId) → ArePassesOf place N.handlers passes.old → AllAt place seated.items → ArePassesOf place N.handlers passes.new }
    ensures handlers { handlers.new.items ≡ map handler_in seated.items }
{
    for one in seated {
        let Seated { pass, handler } = one;
        let Some(pass) = pass else { unreachable!() };
        passes.put_back(pass);
        handlers.push_reserved(handler);
    }
}
