//! Several servers, as a script's handlers call them.

ghost use Rattle.std.specs.Prelude.{◌≡◌};

use crate::groups::{GroupHelper, GroupPass, Groups};
use disk_images::Disk;
use group_servers::handler_threads::ServerName;
use group_servers::region_calls::{Gate, Helped};
use kv_cell::NoMemory;
use script_calls::{Answer, Call};
use script_handlers::{Serves, lent, of_flush, of_get, of_put, of_roll, of_scan, row_behind};
use std::alloc::Global;
use std::sync::Wait;

impl<'a, D: Disk, N1: ServerName, N2: ServerName, N3: ServerName, N4: ServerName, R: Wait> Serves
    for Groups<'a, D, N1, N2, N3, N4, R> {
    ghost use Rattle.std.specs.Prelude.{ℕ};
    ghost use Rattle.server_model.specs.Pass.{Pass as ThePass};
    ghost use Rattle.group_calls.specs.Helpers.{IsHelperOf};
    ghost use Rattle.group_calls.specs.Passes.{known, named, IsGroupPassOf};
    ghost use Rattle.group_calls.specs.Serving.{GroupDoes, MayCallEach, most_calls};

    type Pass = GroupPass<N1, N2, N3, N4>;

    type Seat = GroupHelper;

    // What the pass of each group's server knows.
    ghost Knowledge = { ℕ → ThePass };

    ghost knows = { λ p. known p };

    ghost handler_of = { λ k. (k 1).handler };

    ghost calls_of = { λ k. most_calls k };

    ghost is_pass = { λ s p. IsGroupPassOf s p };

    ghost is_seat = { λ s h. IsHelperOf s h };

    ghost log_of = { λ h. h.group };

    ghost may = { λ h n call. MayCallEach (named ⟦<N1 as group_servers::region_calls::ServerNaming>⟧.name ⟦<N2 as group_servers::region_calls::ServerNaming>⟧.name
        ⟦<N3 as group_servers::region_calls::ServerNaming>⟧.name ⟦<N4 as group_servers::region_calls::ServerNaming>⟧.name) h n call };

    ghost does = { λ s time caller call answer old new. GroupDoes s.count (named ⟦<N1 as group_servers::region_calls::ServerNaming>⟧.name
        ⟦<N2 as group_servers::region_calls::ServerNaming>⟧.name ⟦<N3 as group_servers::region_calls::ServerNaming>⟧.name ⟦<N4 as group_servers::region_calls::ServerNaming>⟧.name)
        time caller call answer old new };

    fn handler(&self, pass: &GroupPass<N1, N2, N3, N4>) -> u32 {
        pass.handler()
    }

    fn make<S: Wait, G: Gate>(
        &self,
        rt: &S,
        alloc: Global,
        gate: &G,
        time: u64,
        pass: &mut GroupPass<N1, N2, N3, N4>,
        number: u32,
        call: Call,
    ) -> Answer {
        // Each group has a server.
        let _ = &self.count;
        gate.before(rt, pass.handler(), number);
        match call {
            Call::Put {
                region,
                durability,
                batch,
            } => of_put(self.put(
                rt, alloc, pass, region, number, time, durability, batch, gate,
            )),
            Call::Scan { region, from, to } => {
                of_scan(self.scan(alloc, pass, region, from.as_slice(), to.as_slice()))
            }
            Call::Get {
                region,
                row,
                versions,
            } => {
                let row = row.as_slice();
                match row_behind(alloc, row) {
                    Ok(behind) => {
                        let end = behind.as_slice();
                        let cells = self.scan(alloc, pass, region, row, end);
                        of_get(alloc, versions, cells)
                    }
                    Err(NoMemory) => Answer::GetMemory,
                }
            }
            Call::Flush { region, family } => {
                of_flush(self.flush(rt, alloc, pass, region, number, lent(&family)))
            }
            Call::Roll => of_roll(self.roll(rt, alloc, pass)),
        }
    }

    fn help<S: Wait>(&self, rt: &S, seat: &mut GroupHelper) -> Helped {
        self.help(rt, seat)
    }
}
