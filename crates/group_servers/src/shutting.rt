//! A group's server is closed.

ghost use Rattle.handler_threads.specs.region_calls.Backs.{AllBack};
ghost use Rattle.handler_threads.specs.region_calls.Deals.{passes_back};
ghost use Rattle.group_servers.specs.Dealing.{AreBackAt};
ghost use Rattle.group_servers.specs.Closing.{HasEnded, HasEndedAt};

use disk_images::Disk;
use handler_threads::ServerName;
use handler_threads::region_calls::{ClosedRegion, ClosedServer, Helpers, Passes, Server};
use std::alloc::Global;
use std::sync::Wait;

/// What the close of a group's server leaves: its disk; its regions, or None where no memory was found for them; and whether a fault ended its log,
/// which is not told without the regions.
pub struct ServerEnd<D> {
    pub disk: D,
    pub regions: Option<Vec<ClosedRegion>>,
    pub broken: bool,
}

/// Closes a server.
pub fn close_one<'a, D: Disk, N: ServerName, R: Wait, S: Wait>(
    server: Server<'a, D, N, R>,
    rt: &S,
    alloc: Global,
    passes: Passes<N>,
    helpers: Helpers,
) -> ServerEnd<D>
    requires { AllBack server N.handlers passes helpers }
    ensures { HasEnded D.Disk N.ServerNaming N.LockNaming N.ServiceNaming N.VersionsNaming (passes_back passes) result }
{
    match server.close(rt, alloc, passes, helpers) {
        Ok(
            ClosedServer {
                disk,
                regions,
                broken,
            },
        ) => ServerEnd {
            disk,
            regions: Some(regions),
            broken,
        },
        Err(refusal) => ServerEnd {
            disk: refusal.into_disk(rt),
            regions: None,
            broken: false,
        },
    }
}

/// The same where there is one.
pub fn close_at<'a, D: Disk, N: ServerName, R: Wait, S: Wait>(
    server: Option<Server<'a, D, N, R>>,
    rt: &S,
    alloc: Global,
    passes: Option<Passes<N>>,
    helpers: Option<Helpers>,
) -> Option<ServerEnd<D>>
    requires { AreBackAt server N.handlers passes helpers }
    ensures { HasEndedAt D.Disk N.ServerNaming N.LockNaming N.ServiceNaming N.VersionsNaming passes result }
{
    match server {
        None => None,
        Some(server) => match passes {
            None => unreachable!(),
            Some(passes) => match helpers {
                None => unreachable!(),
                Some(helpers) => Some(close_one(server, rt, alloc, passes, helpers)),
            },
        },
    }
}
