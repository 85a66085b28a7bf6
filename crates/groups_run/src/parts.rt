//! A server that was started is taken apart.

ghost use Rattle.std.specs.Prelude.{◌≡◌, IfSome};
ghost use Rattle.std.specs.Option.{option_map};
ghost use Rattle.group_calls.specs.group_servers.Starting.{IsNew, IsNewAt};

use disk_images::Disk;
use group_calls::handler_threads::ServerName;
use group_calls::region_calls::{Helpers, Passes, Server, Started};
use std::sync::Wait;

/// The server, its passes and its seats, of a group that is there.
pub(crate) fn parts_of<'a, D: Disk, N: ServerName, R: Wait>(
    started: Option<Started<'a, D, N, R>>,
) -> (
    Option<Server<'a, D, N, R>>,
    Option<Passes<N>>,
    Option<Helpers>,
)
    ensures server { result.0 ≡ option_map (λ s. s.server) started.entry }
    ensures new { IfSome started.entry (λ s. IsNew N.handlers s.server s.passes s.helpers) → IsNewAt N.handlers result.0 result.1 result.2 }
{
    match started {
        None => (None, None, None),
        Some(
            Started {
                server,
                passes,
                helpers,
            },
        ) => (Some(server), Some(passes), Some(helpers)),
    }
}
