//! Passes of several servers are handed to handlers, and come back.

ghost use Rattle.std.specs.Prelude.{◌≡◌, ◌≤◌, [], map, vec_len, vec_capacity};
ghost use Rattle.script_run.specs.Ends.{first_of_all};
ghost use Rattle.groups_run.specs.Dealing.{AreGroupPassesOf, NoneIsOut, groups_out};
ghost use Rattle.group_calls.specs.Servers.{Servers};
ghost use Rattle.groups_run.specs.Handing.{AreTaken, AllOfServers, NoneIsBack, HaveBack, lines_in, spent_in};

use crate::passes::GroupPasses;
use crate::spending::first_of;
use group_calls::GroupPass;
use group_calls::handler_threads::ServerName;
use group_calls::script_handlers::Handler;
use run_model::Spent;
use script_calls::ReplyLines;
use script_run::CallRoom;

/// Makes a handler for each room. There is room for them, and it takes no memory.
pub fn take_passes<N1: ServerName, N2: ServerName, N3: ServerName, N4: ServerName>(
    rooms: Vec<CallRoom>,
    passes: &mut GroupPasses<N1, N2, N3, N4>,
    handlers: &mut Vec<Handler<GroupPass<N1, N2, N3, N4>>>,
)
    requires none { (handlers.old.items ≡ []) × (vec_len rooms ≤ vec_capacity handlers.old) }
    requires of { (s : Servers) × AreGroupPassesOf s N1.handlers N2.handlers N3.handlers N4.handlers passes.old }
    requires passes { NoneIsOut passes.old }
    requires few { vec_len rooms ≡ N1.handlers }
    ensures taken { AreTaken 1 rooms.items handlers.new.items }
    ensures out { groups_out passes.new ≡ N1.handlers }
    ensures back { NoneIsBack passes.new }
    ensures of { (s : Servers) → AreGroupPassesOf s N1.handlers N2.handlers N3.handlers N4.handlers passes.old
        → AreGroupPassesOf s N1.handlers N2.handlers N3.handlers N4.handlers passes.new × AllOfServers s handlers.new.items }
{
    for room in rooms {
        let Some(pass) = passes.next() else {
            unreachable!()
        };
        let CallRoom { calls, replies } = room;
        handlers.push_reserved(Handler {
            pass,
            calls,
            replies,
            spent: None,
        });
    }
}

/// Gives the passes back, and keeps the replies and the first put that found no sequence id left. There is room for them, and
/// it takes no memory.
pub fn give_back<N1: ServerName, N2: ServerName, N3: ServerName, N4: ServerName>(
    handlers: Vec<Handler<GroupPass<N1, N2, N3, N4>>>,
    passes: &mut GroupPasses<N1, N2, N3, N4>,
    parts: &mut Vec<ReplyLines>,
) -> Option<Spent>
    requires none { (parts.old.items ≡ []) × (vec_len handlers ≤ vec_capacity parts.old) }
    requires of { (s : Servers) × AreGroupPassesOf s N1.handlers N2.handlers N3.handlers N4.handlers passes.old × AllOfServers s handlers.items }
    requires passes { (groups_out passes.old ≡ N1.handlers) × NoneIsBack passes.old × (vec_len handlers ≡ N1.handlers) }
    ensures back { HaveBack passes.new handlers.items }
    ensures out { groups_out passes.new ≡ N1.handlers }
    ensures of { (s : Servers) → AreGroupPassesOf s N1.handlers N2.handlers N3.handlers N4.handlers passes.old → AllOfServers s handlers.items
        → AreGroupPassesOf s N1.handlers N2.handlers N3.handlers N4.handlers passes.new }
    ensures parts { parts.new.items ≡ map lines_in handlers.items }
    ensures spent { result ≡ first_of_all (map spent_in handlers.items) }
{
    let mut first = None;
    for handler in handlers {
        let Handler {
            pass,
            calls: _calls,
            replies,
            spent,
        } = handler;
        passes.put_back(pass);
        parts.push_reserved(ReplyLines::of(replies));
        first = first_of(first, spent);
    }
    first
}
