//! Servers that were started are called by all handlers, and closed.

ghost use Rattle.std.specs.Prelude.{◌≡◌, ◌≤◌, ℕ, [], vec_len, vec_capacity, IfOk};
ghost use Rattle.script_model.specs.Calls.{IsScript};
ghost use Rattle.run_model.specs.Closed.{IsNameFor};
ghost use Rattle.script_run.specs.Rooms.{AreRooms, script_in};
ghost use Rattle.groups_run.specs.Dealing.{AreGroupPassesOf, NoneIsOut};
ghost use Rattle.groups_run.specs.Helpers.{AreHelpersOf, AreTwoEach};
ghost use Rattle.group_calls.specs.Passes.{named};
ghost use Rattle.groups_run.specs.Ended.{HaveEnded};
ghost use Rattle.groups_run.specs.Ran.{AllThere};

use crate::closing::{GroupsClosed, close_groups};
use crate::handing::{give_back, take_passes};
use crate::running::run_served;
use crate::seating::{give_seats, take_seats};
use crate::starting::GroupsStarted;
use disk_images::Disk;
use group_calls::handler_threads::ServerName;
use group_calls::region_calls::Gate;
use group_calls::script_handlers::Handler;
use group_calls::{GroupHelper, GroupPass};
use kv_cell::NoMemory;
use run_model::Spent;
use script_calls::ReplyLines;
use script_run::CallRoom;
use std::alloc::Global;
use std::sync::Wait;
use std::thread::Threads;

/// Room for the handlers, for their replies and for the seats of the threads that help.
#[derive(Drop)]
pub struct RunRoom<N1: ServerName, N2: ServerName, N3: ServerName, N4: ServerName> {
    handlers: Vec<Handler<GroupPass<N1, N2, N3, N4>>>,
    replies: Vec<ReplyLines>,
    seats: Vec<GroupHelper>,
}

/// Room for so many handlers.
pub fn make_room<N1: ServerName, N2: ServerName, N3: ServerName, N4: ServerName>(
    alloc: Global,
    handlers: usize,
) -> Result<RunRoom<N1, N2, N3, N4>, NoMemory>
    ensures handlers { IfOk result (λ room. (room.handlers.items ≡ []) × (handlers ≤ vec_capacity room.handlers)) }
    ensures replies { IfOk result (λ room. (room.replies.items ≡ []) × (handlers ≤ vec_capacity room.replies)) }
    ensures seats { IfOk result (λ room. (room.seats.items ≡ []) × (8 ≤ vec_capacity room.seats)) }
{
    let room_for_handlers = Vec::with_capacity(alloc, handlers)?;
    let replies = Vec::with_capacity(alloc, handlers)?;
    let seats = Vec::with_capacity(alloc, 8)?;
    Ok(RunRoom {
        handlers: room_for_handlers,
        replies,
        seats,
    })
}

/// What a run on servers that were started leaves: what their close gives, the replies of each handler, and the first put that found no sequence id
/// left.
pub struct RunEnd<D> {
    pub closed: GroupsClosed<D>,
    pub replies: Vec<ReplyLines>,
    pub spent: Option<Spent>,
}

/// Runs the handlers, and closes the servers. No memory is taken but by the handlers' calls and the close.
pub fn run_started<
    'a,
    N1: ServerName + Send + Sync,
    N2: ServerName + Send + Sync,
    N3: ServerName + Send + Sync,
    N4: ServerName + Send + Sync,
    R: Threads + Wait + Sync,
    D: Disk + Send,
    G: Gate + Sync,
>(
    rt: &R,
    alloc: Global,
    started: GroupsStarted<'a, D, N1, N2, N3, N4, R>,
    time: u64,
    rooms: Vec<CallRoom>,
    gate: &G,
    room: RunRoom<N1, N2, N3, N4>,
) -> RunEnd<D>
    requires rooms { AreRooms rooms.items }
    requires script { IsScript (script_in time N1.name.regions rooms.items) }
    requires few { vec_len rooms ≡ N1.handlers }
    requires fits { (k : ℕ) → IsNameFor (script_in time N1.name.regions rooms.items) (named N1.name N2.name N3.name N4.name k) }
    requires handlers { (room.handlers.items ≡ []) × (vec_len rooms ≤ vec_capacity room.handlers) }
    requires replies { (room.replies.items ≡ []) × (vec_len rooms ≤ vec_capacity room.replies) }
    requires seats { (room.seats.items ≡ []) × (8 ≤ vec_capacity room.seats) }
    requires servers { AllThere started.groups }
    requires passes { AreGroupPassesOf started.groups N1.handlers N2.handlers N3.handlers N4.handlers started.passes × NoneIsOut started.passes }
    requires helpers { AreHelpersOf started.groups started.helpers × AreTwoEach started.helpers }
    ensures { HaveEnded D.Disk N1.ServerNaming N1.LockNaming N1.ServiceNaming N1.VersionsNaming
        N2.ServerNaming N2.LockNaming N2.ServiceNaming N2.VersionsNaming N3.ServerNaming N3.LockNaming N3.ServiceNaming N3.VersionsNaming
        N4.ServerNaming N4.LockNaming N4.ServiceNaming N4.VersionsNaming
        started.entry.groups (named N1.name N2.name N3.name N4.name) (script_in time N1.name.regions rooms.items) result }
{
    let GroupsStarted {
        groups,
        mut passes,
        mut helpers,
    } = started;
    let RunRoom {
        mut handlers,
        mut replies,
        mut seats,
    } = room;
    take_passes(rooms, &mut passes, &mut handlers);
    take_seats(&mut helpers, &mut seats);
    run_served(
        rt,
        alloc,
        &groups,
        gate,
        time,
        seats.as_mut_slice(),
        &mut handlers,
    );
    give_seats(seats, &mut helpers);
    let spent = give_back(handlers, &mut passes, &mut replies);
    let closed = close_groups(groups, rt, alloc, passes, helpers);
    RunEnd {
        closed,
        replies,
        spent,
    }
}
