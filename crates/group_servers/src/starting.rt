//! An opened store becomes a group's server, where there is one.

ghost use Rattle.std.specs.Prelude.{◌≡◌, Some, IfOk, IfErr, IfSome};
ghost use Rattle.std.specs.Option.{option_map};
ghost use Rattle.handler_threads.specs.region_calls.Store.{disk_now};
ghost use Rattle.group_lists.specs.Lists.{AtBoth};
ghost use Rattle.group_servers.specs.Starting.{IsNamedAt, IsNew, HasRegionsOf};

use disk_images::Disk;
use handler_threads::ServerName;
use handler_threads::region_calls::{OpenedStore, StartRefusal, Started};
use std::alloc::Global;
use std::sync::Wait;

/// The server of a group's store, by a name that is its. Where there is no memory the disk comes back.
pub fn start_at<'a, D: Disk, N: ServerName, R: Wait>(
    rt: &'a R,
    alloc: Global,
    opened: Option<OpenedStore<D>>,
) -> Result<Option<Started<'a, D, N, R>>, D>
    requires { IsNamedAt D.Disk N.ServerNaming N.LockNaming N.ServiceNaming N.VersionsNaming opened }
    ensures new { IfOk result (λ started. IfSome started (λ s. IsNew N.handlers s.server s.passes s.helpers)) }
    ensures sites { IfOk result (λ started. AtBoth (λ o s. HasRegionsOf o s.server) opened started) }
    ensures refused { IfErr result (λ disk. option_map disk_now opened ≡ Some disk) }
{
    match opened {
        None => Ok(None),
        Some(opened) => match opened.named::<N, R>(rt, alloc) {
            Ok(started) => Ok(Some(started)),
            Err(StartRefusal { why: _, disk }) => Err(disk),
        },
    }
}
