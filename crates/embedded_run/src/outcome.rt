//! What is left of a server and its handlers.

ghost use Rattle.std.specs.Prelude.{◌≡◌};

use embedded::region_calls::{ClosedRegion, StartWhy};

/// How `run_handlers` ended. The disk and the handlers come back each time, the handlers in the order in which they were given.
#[derive(Drop)]
pub enum Outcome<D, H> {
    /// The handlers have worked and the server is closed: its regions in order, from 1 on, and whether a fault ended the log.
    Closed {
        disk: D,
        regions: Vec<ClosedRegion>,
        handlers: Vec<H>,
        broken: bool,
    },
    /// The handlers have worked, and there was no memory to close the server: its regions are not handed on, but what was receipted is on
    /// the disk.
    Unclosed {
        disk: D,
        handlers: Vec<H>,
    },
    /// The store could not be opened, or there was no memory to start a server on it. No handler has worked, and they are as they were.
    Unopened {
        why: StartWhy,
        disk: D,
        handlers: Vec<H>,
    },
}

/// There was no memory to start a server.
pub(crate) fn not_started<D, H>(disk: D, handlers: Vec<H>) -> Outcome<D, H>
    ensures { result ≡ Outcome.Unopened StartWhy.Memory disk handlers }
{
    Outcome::Unopened {
        why: StartWhy::Memory,
        disk,
        handlers,
    }
}
