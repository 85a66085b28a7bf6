//! All handlers on one server.

ghost use Rattle.std.specs.Prelude.{◌≡◌, length};
ghost use Rattle.embedded.specs.region_calls.Deals.{AreSeatsOf};
ghost use Rattle.embedded_run.specs.Seats.{AreSeated, HaveAllWorked};

use crate::handler::Handler;
use crate::job::SessionJob;
use crate::seated::Seated;
use disk_images::Disk;
use embedded::handler_threads::{ServerName, run_all};
use embedded::region_calls::{Helpers, Pass, Server};
use std::alloc::Global;
use std::marker::PhantomData;
use std::sync::Wait;
use std::thread::Threads;

/// Lets each handler work, in a thread of its own, while two more threads help the log.
pub(crate) fn run_on<
    'a,
    'b,
    N: ServerName + Send + Sync,
    R: Threads + Wait + Sync,
    D: Disk + Send,
    H: Handler + Send + Sync,
>(
    rt: &'a R,
    alloc: Global,
    server: &'a Server<'b, D, N, R>,
    time: u64,
    regions: u32,
    helpers: &mut Helpers,
    seated: &mut Vec<Seated<Pass<N>, H>>,
)
    requires helpers { (length helpers.old ≡ 2) × AreSeatsOf server.now helpers.old }
    requires ready { AreSeated N.name server.now time regions seated.old.items }
    ensures helpers { (length helpers.new ≡ 2) × AreSeatsOf server.now helpers.new }
    ensures worked { HaveAllWorked H.did N.name server.now time seated.old.items seated.new.items }
{
    let Some(first) = helpers.next() else {
        unreachable!()
    };
    let Some(second) = helpers.next() else {
        unreachable!()
    };
    let job = SessionJob {
        rt,
        server,
        time,
        regions,
        of: PhantomData,
    };
    let mut seats = [first, second];
    run_all(rt, alloc, &job, &mut seats, seated);
    let mut seats = seats.into_iter();
    let Some(first) = seats.next() else {
        unreachable!()
    };
    let Some(second) = seats.next() else {
        unreachable!()
    };
    helpers.put_back(first);
    helpers.put_back(second);
}
