//! The job of a server's handlers.

use crate::handler::Handler;
use crate::seated::Seated;
use disk_images::Disk;
use embedded::ServerSession;
use embedded::handler_threads::{Job, ServerName};
use embedded::region_calls::{Helped, LogSeat, Pass, Server};
use std::alloc::Global;
use std::marker::PhantomData;
use std::sync::Wait;

/// Each handler works in a session of its own on this server.
#[derive_where(Clone, Copy)]
pub struct SessionJob<'a, S, R, H> {
    pub rt: &'a R,
    pub server: &'a S,
    /// Of each put's entry, in milliseconds, below 2^63.
    pub time: u64,
    pub regions: u32,
    pub of: PhantomData<H>,
}

impl<'a, 'b, D: Disk, N: ServerName, R: Wait, H: Handler> Job
    for SessionJob<'a, Server<'b, D, N, R>, R, H> {
    ghost use Rattle.embedded.specs.log_service.Places.{IsSeatOf};
    ghost use Rattle.embedded_run.specs.Seats.{IsSeated, HasWorked};

    type Handler = Seated<Pass<N>, H>;

    type Seat = LogSeat;

    ghost is_ready = { λ j h. IsSeated ⟦<N as embedded::region_calls::ServerNaming>⟧.name j.server.now j.time j.regions h };

    ghost has_worked = { λ j old new. HasWorked H.did ⟦<N as embedded::region_calls::ServerNaming>⟧.name j.server.now j.time old new };

    ghost is_seat = { λ j q. IsSeatOf j.server.now q };

    ghost log_of = { λ q. 1 };

    fn work<W: Wait>(&self, _rt: &W, alloc: Global, handler: &mut Seated<Pass<N>, H>) {
        let Some(pass) = handler.pass.take() else {
            unreachable!()
        };
        let mut session = ServerSession::new(
            self.rt,
            alloc,
            self.server,
            pass,
            self.time,
            self.regions,
        );
        handler.handler.work(&mut session);
        handler.pass = Some(session.into_pass());
    }

    fn help<W: Wait>(&self, rt: &W, seat: &mut LogSeat) -> Helped {
        self.server.help(rt, seat)
    }
}
