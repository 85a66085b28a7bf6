//! The job of a script's handlers.

use crate::handler::Handler;
use crate::making::handle;
use crate::serves::Serves;
use handler_threads::Job;
use handler_threads::region_calls::{Gate, Helped};
use std::alloc::Global;
use std::sync::Wait;

/// A script's handlers make their calls on this server. Before each call its handler waits for the gate.
#[derive_where(Clone, Copy)]
pub struct Calling<'a, S: Serves, G: Gate> {
    pub server: &'a S,
    pub gate: &'a G,
    /// Of each put's entry, in milliseconds, below 2^63.
    pub time: u64,
}

impl<'a, S: Serves, G: Gate> Job for Calling<'a, S, G> {
    ghost use Rattle.std.specs.Prelude.{◌<◌, ◌^◌};
    ghost use Rattle.script_handlers.specs.Handled.{HasRun, IsReady};

    type Handler = Handler<S::Pass>;

    type Seat = S::Seat;

    ghost is_ready = { λ j h. IsReady S.is_pass S.knows S.handler_of S.calls_of S.may j.server.now h × (j.time < 2 ^ 63) };

    ghost has_worked = { λ j old new. HasRun S.is_pass S.knows S.handler_of S.calls_of (S.does j.server.now j.time) j.server.now old new };

    ghost is_seat = { λ j q. S.is_seat j.server.now q };

    ghost log_of = { S.log_of };

    fn work<R: Wait>(&self, rt: &R, alloc: Global, handler: &mut Handler<S::Pass>) {
        handle(rt, alloc, self.server, self.gate, self.time, handler)
    }

    fn help<R: Wait>(&self, rt: &R, seat: &mut S::Seat) -> Helped {
        self.server.help(rt, seat)
    }
}
