//! All handlers of a script on one server.

ghost use Rattle.std.specs.Prelude.{◌<◌, ◌^◌};
ghost use Rattle.script_handlers.specs.log_service.Places.{IsSeatOf};
ghost use Rattle.script_run.specs.Ran.{AreReady, HaveRun};

use disk_images::Disk;
use script_handlers::handler_threads::{ServerName, run_all};
use script_handlers::region_calls::{Gate, LogSeat, Pass, Server};
use script_handlers::{Calling, Handler};
use std::alloc::Global;
use std::sync::Wait;
use std::thread::Threads;

/// Runs all handlers, while two more threads help the log.
pub fn run_on<
    'a,
    'b,
    N: ServerName + Send + Sync,
    R: Threads + Wait + Sync,
    D: Disk + Send,
    G: Gate + Sync,
>(
    rt: &R,
    alloc: Global,
    server: &'a Server<'b, D, N, R>,
    gate: &'a G,
    time: u64,
    first: LogSeat,
    second: LogSeat,
    handlers: Vec<Handler<Pass<N>>>,
) -> (Vec<Handler<Pass<N>>>, LogSeat, LogSeat)
    requires seats { IsSeatOf server.now first × IsSeatOf server.now second }
    requires ready { AreReady N.name server.now handlers.items }
    requires time { time < 2 ^ 63 }
    ensures run { HaveRun N.name server.now time handlers.items result.0.items }
    ensures seats { IsSeatOf server.now result.1 × IsSeatOf server.now result.2 }
{
    let job = Calling { server, gate, time };
    let mut seats = [first, second];
    let mut handlers = handlers;
    run_all(rt, alloc, &job, &mut seats, &mut handlers);
    let mut seats = seats.into_iter();
    let Some(first) = seats.next() else {
        unreachable!()
    };
    let Some(second) = seats.next() else {
        unreachable!()
    };
    (handlers, first, second)
}
