//! Passes are handed to handlers, and come back.

ghost use Rattle.std.specs.Prelude.{◌≡◌, ◌≤◌, [], map, length, vec_len, vec_capacity};
ghost use Rattle.script_handlers.specs.log_service.Places.{ServiceId};
ghost use Rattle.script_handlers.specs.region_calls.Passes.{knows, IsPassOf};
ghost use Rattle.script_handlers.specs.region_calls.Deals.{passes_out, passes_back, ArePassesOf};
ghost use Rattle.script_run.specs.Rooms.{AreTaken};
ghost use Rattle.script_run.specs.Ran.{AllOfPlace, pass_of, lines_in, spent_in};
ghost use Rattle.script_run.specs.Ends.{first_of_all};

use crate::room::CallRoom;
use crate::spending::first_of;
use run_model::Spent;
use script_calls::ReplyLines;
use script_handlers::Handler;
use script_handlers::region_calls::{Pass, Passes};

/// Makes a handler for each room. There is room for them, and it takes no memory.
pub fn take_passes<N: script_handlers::region_lock::LockNaming + region_versions::VersionsNaming>(
    rooms: Vec<CallRoom>,
    passes: &mut Passes<N>,
    handlers: &mut Vec<Handler<Pass<N>>>,
)
    requires none { (handlers.old.items ≡ []) × (vec_len rooms ≤ vec_capacity handlers.old) }
    requires of { (place : ServiceId) × ArePassesOf place N.handlers passes.old }
    requires passes { (passes_out passes.old ≡ 0) × (vec_len rooms ≡ N.handlers) }
    ensures taken { AreTaken 1 rooms.items handlers.new.items }
    ensures out { passes_out passes.new ≡ N.handlers }
    ensures back { passes_back passes.new ≡ passes_back passes.old }
    ensures of { (place : ServiceId) → ArePassesOf place N.handlers passes.old → ArePassesOf place N.handlers passes.new × AllOfPlace place handlers.new.items }
{
    for room in rooms {
        let Some(pass) = passes.next() else {
            unreachable!()
        };
        let CallRoom { calls, replies } = room;
        handlers.push_reserved(Handler {
            pass,
            calls,
            replies,
            spent: None,
        });
    }
}

/// Gives the passes back, and keeps the replies and the first put that found no sequence id left. There is room for them, and
/// it takes no memory.
pub fn give_back<N: script_handlers::region_lock::LockNaming + region_versions::VersionsNaming>(
    handlers: Vec<Handler<Pass<N>>>,
    passes: &mut Passes<N>,
    parts: &mut Vec<ReplyLines>,
) -> Option<Spent>
    requires none { (parts.old.items ≡ []) × (vec_len handlers ≤ vec_capacity parts.old) }
    requires of { (place : ServiceId) × ArePassesOf place N.handlers passes.old × AllOfPlace place handlers.items }
    requires passes { (passes_out passes.old ≡ N.handlers) × (passes_back passes.old ≡ []) × (vec_len handlers ≡ N.handlers) }
    ensures back { passes_back passes.new ≡ map pass_of handlers.items }
    ensures out { passes_out passes.new ≡ N.handlers }
    ensures of { (place : ServiceId) → ArePassesOf place N.handlers passes.old → AllOfPlace place handlers.items → ArePassesOf place N.handlers passes.new }
    ensures parts { parts.new.items ≡ map lines_in handlers.items }
    ensures spent { result ≡ first_of_all (map spent_in handlers.items) }
{
    let mut first = None;
    for handler in handlers {
        let Handler {
            pass,
            calls: _calls,
            replies,
            spent,
        } = handler;
        passes.put_back(pass);
        parts.push_reserved(ReplyLines::of(replies));
        first = first_of(first, spent);
    }
    first
}
