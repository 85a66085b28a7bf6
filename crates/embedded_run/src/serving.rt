//! Handlers on a store that is opened.

ghost use Rattle.std.specs.Prelude.{◌≡◌, ◌<◌, ◌^◌, IsTrue, vec_len};
ghost use Rattle.log_model.specs.Files.{IsSound};
ghost use Rattle.run_model.specs.Headline.{KeepsThroughout};
ghost use Rattle.embedded.specs.region_calls.Names.{IsNameOf};
ghost use Rattle.embedded.specs.region_calls.Store.{IsStore, disk_now, disk_found, regions_of, handlers_of};
ghost use Rattle.embedded.specs.wal_split.Moments.{During, WasOrAlike};
ghost use Rattle.embedded.specs.Flushers.{MayAllFlush};
ghost use Rattle.embedded_run.specs.Ends.{HasEnded, HasCount, disk_of};

use crate::handing::{give_back, seat_all};
use crate::handler::Handler;
use crate::joining::run_on;
use crate::outcome::{Outcome, not_started};
use crate::seated::make_room;
use disk_images::Disk;
use embedded::handler_threads::ServerName;
use embedded::region_calls::{ClosedServer, OpenedStore, StartRefusal, Started};
use std::alloc::Global;
use std::sync::Wait;
use std::thread::Threads;

/// Lets the handlers work, and closes the server. Between its naming and its close no memory is taken but by the handlers' calls.
pub(crate) fn serve<
    N: ServerName + Send + Sync,
    R: Threads + Wait + Sync,
    D: Disk + Send,
    H: Handler + Drop + Send + Sync,
>(rt: &R, alloc: Global, opened: OpenedStore<D>, time: u64, handlers: Vec<H>) -> Outcome<D, H>
    requires time { time < 2 ^ 63 }
    requires few { handlers_of opened ≡ vec_len handlers }
    requires sound { IsTrue D.told → IsSound (D.view (disk_found opened)).files }
    requires any_moment { IsTrue D.told → During (WasOrAlike (D.view (disk_found opened))) (D.view (disk_found opened)) (D.view (disk_now opened)) }
    // The name is the store's.
    requires store { IsStore D.Disk opened }
    requires name { IsNameOf D.Disk N.ServerNaming N.LockNaming N.ServiceNaming N.VersionsNaming opened }
    requires flushers { MayAllFlush N.name }

    ensures ends { HasEnded D.Disk H.did time (regions_of opened) (disk_found opened) handlers.items result }
    // At each moment a crash leaves an image of the disk as found, or the cells that were found; former moments stay.
    ensures any_moment { IsTrue D.told → KeepsThroughout (D.view (disk_found opened)) (D.view (disk_of result)) }
    ensures count { HasCount D.faults N.faults result }
{
    let count = opened.regions();
    let Ok((mut seated, mut back)) = make_room(alloc, handlers.len()) else {
        return not_started(opened.into_disk(), handlers);
    };
    let (server, mut passes, mut helpers) = match opened.named::<N, R>(rt, alloc) {
        Ok(
            Started {
                server,
                passes,
                helpers,
            },
        ) => (server, passes, helpers),
        Err(StartRefusal { why: _, disk }) => return not_started(disk, handlers),
    };
    seat_all(handlers, &mut passes, &mut seated);
    run_on(rt, alloc, &server, time, count, &mut helpers, &mut seated);
    give_back(seated, &mut passes, &mut back);
    match server.close(rt, alloc, passes, helpers) {
        Ok(
            ClosedServer {
                disk,
                regions,
                broken,
            },
        ) => Outcome::Closed {
            disk,
            regions,
            handlers: back,
            broken,
        },
        Err(refusal) => Outcome::Unclosed {
            disk: refusal.into_disk(rt),
            handlers: back,
        },
    }
}
