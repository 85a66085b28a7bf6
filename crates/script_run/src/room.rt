//! Room for the replies of a script's handlers.

ghost use Rattle.std.specs.Prelude.{◌≡◌, map, IfOk};
ghost use Rattle.script_run.specs.Rooms.{IsRoom, AreRooms, calls_in};

use kv_cell::NoMemory;
use script_calls::{Call, CallList, HandlerList, ReplyLine};
use std::alloc::Global;

/// The calls of a handler, and room for their replies.
#[derive(Drop)]
pub struct CallRoom {
    pub calls: Vec<Call>,
    pub replies: Vec<ReplyLine>,
}

/// A room for each handler, the first one's first.
pub fn make_rooms(alloc: Global, handlers: HandlerList) -> Result<Vec<CallRoom>, NoMemory>
    ensures rooms { IfOk result (λ rooms. AreRooms rooms.items) }
    ensures calls { IfOk result (λ rooms. map calls_in rooms.items ≡ handlers) }
{
    let lists = handlers.into_vec();
    let mut rooms = Vec::with_capacity(alloc, lists.len())?;
    for list in lists {
        rooms.push(make_room(alloc, list)?)?;
    }
    Ok(rooms)
}

fn make_room(alloc: Global, list: CallList) -> Result<CallRoom, NoMemory>
    ensures room { IfOk result (λ room. IsRoom room) }
    ensures calls { IfOk result (λ room. calls_in room ≡ list) }
{
    let calls = list.into_vec();
    let replies = Vec::with_capacity(alloc, calls.len())?;
    Ok(CallRoom { calls, replies })
}
