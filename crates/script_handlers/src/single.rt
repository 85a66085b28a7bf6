//! One server, as a script's handlers call it.

ghost use Rattle.std.specs.Prelude.{◌≡◌};

use crate::answering::{of_flush, of_put, of_roll, of_scan};
use crate::flushing::lent;
use crate::getting::get_row;
use crate::serves::Serves;
use disk_images::Disk;
use handler_threads::ServerName;
use handler_threads::region_calls::{Gate, Helped, LogSeat, Pass, Server};
use script_calls::{Answer, Call};
use std::alloc::Global;
use std::sync::Wait;

impl<'a, D: Disk, N: ServerName, S: Wait> Serves for Server<'a, D, N, S> {
    ghost use Rattle.server_model.specs.Pass.{Pass as ThePass};
    ghost use Rattle.server_model.specs.Steps.{Does};
    ghost use Rattle.handler_threads.specs.log_service.Places.{IsSeatOf};
    ghost use Rattle.handler_threads.specs.region_calls.Passes.{knows, IsPassOf};
    ghost use Rattle.script_handlers.specs.Calling.{MayCall};

    type Pass = Pass<N>;

    type Seat = LogSeat;

    ghost Knowledge = { ThePass };

    ghost knows = { λ p. knows p };

    ghost handler_of = { λ k. k.handler };

    ghost calls_of = { λ k. k.calls };

    ghost is_pass = { λ s p. IsPassOf s p };

    ghost is_seat = { λ s q. IsSeatOf s q };

    ghost log_of = { λ q. 1 };

    ghost may = { λ h n call. MayCall ⟦<N as handler_threads::region_calls::ServerNaming>⟧.name h n call };

    ghost does = { λ s time caller call answer old new. Does ⟦<N as handler_threads::region_calls::ServerNaming>⟧.name time caller call answer old new };

    fn handler(&self, pass: &Pass<N>) -> u32 {
        pass.handler()
    }

    fn make<R: Wait, G: Gate>(
        &self,
        rt: &R,
        alloc: Global,
        gate: &G,
        time: u64,
        pass: &mut Pass<N>,
        number: u32,
        call: Call,
    ) -> Answer {
        gate.before(rt, pass.handler(), number);
        match call {
            Call::Put {
                region,
                durability,
                batch,
            } => of_put(self.put(
                rt, alloc, pass, region, number, time, durability, batch, gate,
            )),
            Call::Scan { region, from, to } => {
                of_scan(self.scan(alloc, pass, region, from.as_slice(), to.as_slice()))
            }
            Call::Get {
                region,
                row,
                versions,
            } => get_row(alloc, self, pass, region, &row, versions),
            Call::Flush { region, family } => {
                of_flush(self.flush(rt, alloc, pass, region, number, lent(&family)))
            }
            Call::Roll => of_roll(self.roll(rt, alloc, pass)),
        }
    }

    fn help<R: Wait>(&self, rt: &R, seat: &mut LogSeat) -> Helped {
        self.help(rt, seat)
    }
}
