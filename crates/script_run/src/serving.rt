//! A script is run on a store that is opened.

ghost use Rattle.std.specs.Prelude.{◌≡◌, IsTrue, vec_len};
ghost use Rattle.log_model.specs.Files.{IsSound};
ghost use Rattle.script_model.specs.Calls.{IsScript};
ghost use Rattle.run_model.specs.Closed.{IsNameFor};
ghost use Rattle.run_model.specs.Headline.{KeepsThroughout};
ghost use Rattle.script_handlers.specs.region_calls.Names.{IsNameOf};
ghost use Rattle.script_handlers.specs.region_calls.Store.{IsStore, disk_now, disk_found, regions_of, handlers_of};
ghost use Rattle.script_handlers.specs.wal_split.Moments.{During, WasOrAlike};
ghost use Rattle.script_run.specs.Rooms.{AreRooms, script_in};
ghost use Rattle.script_run.specs.Ends.{IsServed, HasCount, disk_left};

use crate::handing::{give_back, take_passes};
use crate::room::CallRoom;
use crate::running::run_on;
use crate::served::Served;
use disk_images::Disk;
use script_handlers::handler_threads::ServerName;
use script_handlers::region_calls::{ClosedServer, Gate, OpenedStore, StartRefusal, Started};
use std::alloc::Global;
use std::sync::Wait;
use std::thread::Threads;

/// Runs the handlers, and closes the server. Between its naming and its close no memory is taken but by the handlers' calls.
pub fn serve<N: ServerName + Send + Sync, R: Threads + Wait + Sync, D: Disk + Send, G: Gate + Sync>(
    rt: &R,
    alloc: Global,
    opened: OpenedStore<D>,
    time: u64,
    rooms: Vec<CallRoom>,
    gate: &G,
) -> Served<D>
    // The script, and that the store was opened for it.
    requires rooms { AreRooms rooms.items }
    requires script { IsScript (script_in time (regions_of opened) rooms.items) }
    requires few { handlers_of opened ≡ vec_len rooms }
    requires sound { IsTrue D.told → IsSound (D.view (disk_found opened)).files }
    requires any_moment { IsTrue D.told → During (WasOrAlike (D.view (disk_found opened))) (D.view (disk_found opened)) (D.view (disk_now opened)) }
    // The name is the store's, and the script's.
    requires store { IsStore D.Disk opened }
    requires name { IsNameOf D.Disk N.ServerNaming N.LockNaming N.ServiceNaming N.VersionsNaming opened }
    requires named { IsNameFor (script_in time (regions_of opened) rooms.items) N.name }

    ensures served { IsTrue D.told → IsServed D.view (script_in time (regions_of opened) rooms.items) (D.view (disk_found opened)) N.name result }
    // At each moment a crash leaves an image of the disk as found, or the cells that were found; former moments stay.
    ensures any_moment { IsTrue D.told → KeepsThroughout (D.view (disk_found opened)) (D.view (disk_left result)) }
    ensures count { HasCount D.faults N.faults result }
{
    let Ok(mut handlers) = Vec::with_capacity(alloc, rooms.len()) else {
        return Served::Left {
            disk: opened.into_disk(),
        };
    };
    let Ok(mut replies) = Vec::with_capacity(alloc, rooms.len()) else {
        return Served::Left {
            disk: opened.into_disk(),
        };
    };
    let (server, mut passes, mut helpers) = match opened.named::<N, R>(rt, alloc) {
        Ok(
            Started {
                server,
                passes,
                helpers,
            },
        ) => (server, passes, helpers),
        Err(StartRefusal { why: _, disk }) => return Served::Left { disk },
    };
    let Some(first) = helpers.next() else {
        unreachable!()
    };
    let Some(second) = helpers.next() else {
        unreachable!()
    };
    take_passes(rooms, &mut passes, &mut handlers);
    let (handlers, first, second) = run_on(rt, alloc, &server, gate, time, first, second, handlers);
    helpers.put_back(first);
    helpers.put_back(second);
    let spent = give_back(handlers, &mut passes, &mut replies);
    match server.close(rt, alloc, passes, helpers) {
        Ok(
            ClosedServer {
                disk,
                regions,
                broken,
            },
        ) => Served::Closed {
            disk,
            regions,
            replies,
            spent,
            broken,
        },
        Err(refusal) => Served::Left {
            disk: refusal.into_disk(rt),
        },
    }
}
