//! All handlers of a script on several servers.

ghost use Rattle.std.specs.Prelude.{◌<◌, ◌^◌};
ghost use Rattle.group_calls.specs.handler_threads.Working.{AreReady as AllReady, AreSeats, HaveHelped, HaveWorked};
ghost use Rattle.group_calls.specs.script_handlers.Handled.{IsReady as IsReadyFor, HasRun as HasRunFor};

use group_calls::handler_threads::run_all;
use group_calls::region_calls::Gate;
use group_calls::script_handlers::{Calling, Handler, Serves};
use std::alloc::Global;
use std::sync::Wait;
use std::thread::Threads;

/// Runs all handlers on what serves them, while a thread for each seat helps its log.
pub fn run_served<S: Serves + Sync, R: Threads + Wait + Sync, G: Gate + Sync>(
    rt: &R,
    alloc: Global,
    server: &S,
    gate: &G,
    time: u64,
    seats: &mut [S::Seat],
    handlers: &mut Vec<Handler<S::Pass>>,
)
where
    S::Pass: Send,
    S::Seat: Send,
    requires seats { AreSeats S.is_seat server.now seats.old }
    requires ready { AllReady (IsReadyFor S.is_pass S.knows S.handler_of S.calls_of S.may) server.now handlers.old.items }
    requires time { time < 2 ^ 63 }
    ensures run { HaveWorked (λ s old new. HasRunFor S.is_pass S.knows S.handler_of S.calls_of (S.does s time) s old new) server.now
        handlers.old.items handlers.new.items }
    ensures seats { HaveHelped S.is_seat S.log_of server.now seats.old seats.new }
{
    let job = Calling { server, gate, time };
    run_all(rt, alloc, &job, seats, handlers);
}
