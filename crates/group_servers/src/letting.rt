//! A group's server that was started is let go again.

ghost use Rattle.std.specs.Prelude.{◌≡◌, [], length, IfSome};
ghost use Rattle.handler_threads.specs.log_service.Places.{ServiceId};
ghost use Rattle.handler_threads.specs.region_calls.Deals.{passes_out, passes_back, ArePassesOf};
ghost use Rattle.group_lists.specs.Lists.{AtBoth};
ghost use Rattle.group_servers.specs.Starting.{AreUnused, HasLetGo, IsNew};

use disk_images::Disk;
use handler_threads::ServerName;
use handler_threads::region_calls::{CloseRefusal, Passes, Started};
use std::sync::Wait;

/// Hands all passes out, and takes them back.
fn all_back<N: ServerName>(passes: Passes<N>) -> Passes<N>
    requires of { (place : ServiceId) × ArePassesOf place N.handlers passes }
    requires new { (passes_out passes ≡ 0) × (passes_back passes ≡ []) }
    ensures out { (passes_out result ≡ N.handlers) × (length (passes_back result) ≡ N.handlers) }
    ensures unused { AreUnused (passes_back result) }
    ensures of { (place : ServiceId) → ArePassesOf place N.handlers passes → ArePassesOf place N.handlers result }
{
    let mut passes = passes;
    'dealing: while let Some(pass) = passes.next() {
        passes.put_back(pass);
    }
    passes
}

/// Closes a server that nobody called, and gives its disk back. It takes no memory.
pub fn let_go<'a, D: Disk, N: ServerName, R: Wait>(rt: &'a R, started: Started<'a, D, N, R>) -> D
    requires { IsNew N.handlers started.server started.passes started.helpers }
    ensures { HasLetGo D.Disk N.ServerNaming N.LockNaming N.ServiceNaming N.VersionsNaming result }
{
    let Started {
        server,
        passes,
        helpers,
    } = started;
    let passes = all_back(passes);
    CloseRefusal {
        server,
        passes,
        helpers,
    }
    .into_disk(rt)
}

/// The same where there is one.
pub fn let_go_at<'a, D: Disk, N: ServerName, R: Wait>(
    rt: &'a R,
    started: Option<Started<'a, D, N, R>>,
) -> Option<D>
    requires { IfSome started (λ s. IsNew N.handlers s.server s.passes s.helpers) }
    ensures { AtBoth (λ s d. HasLetGo D.Disk N.ServerNaming N.LockNaming N.ServiceNaming N.VersionsNaming d) started.entry result }
{
    match started {
        None => None,
        Some(started) => Some(let_go(rt, started)),
    }
}
