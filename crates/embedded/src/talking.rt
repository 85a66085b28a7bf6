//! The calls of a session on a server.

ghost use Rattle.std.specs.Prelude.{◌≡◌, ◌≤◌, ◌++◌, ◌∷◌, [], IfOk};
ghost use Rattle.cell_model.specs.Merge.{IsRising};
ghost use Rattle.region_model.specs.Calls.{Newest};
ghost use Rattle.embedded.specs.Settings.{IsMaskOf};

use crate::session::Session;
use crate::sitting::ServerSession;
use disk_images::Disk;
use handler_threads::ServerName;
use handler_threads::region_calls::{
    FlushRefusal, FreeGate, PutRefusal, RollRefusal, Rolled, ScanReply, Scanner,
};
use kv_cell::{Batch, Durability, NoMemory};
use row_reader::mask;
use std::alloc::Global;
use std::sync::Wait;

/// The row after which the rows above this one begin: the row with a byte 0 after it.
fn row_behind(alloc: Global, row: &[u8]) -> Result<Vec<u8>, NoMemory>
    ensures { IfOk result (λ behind. behind.items ≡ row.now ++ 0 ∷ []) }
{
    let mut behind = Vec::new(alloc);
    behind.reserve(row.len() + 1)?;
    behind.extend_from_slice(row)?;
    behind.push(0)?;
    Ok(behind)
}

/// What a reader of so many versions sees of a scan of one row.
fn masked(
    alloc: Global,
    versions: u32,
    scanned: Result<ScanReply, NoMemory>,
) -> Result<ScanReply, NoMemory>
    requires order { IfOk scanned (λ reply. IsRising reply.cells) }
    ensures { IsMaskOf versions scanned result }
{
    let ScanReply { point, cells } = scanned?;
    let cells = mask(alloc, cells.as_slice(), u64::from(versions))?;
    Ok(ScanReply { point, cells })
}

impl<'a, 'b, D: Disk, N: ServerName, R: Wait> Session for ServerSession<'a, 'b, D, N, R> {
    ghost use Rattle.handler_threads.specs.region_calls.Passes.{knows, IsPassOf};
    ghost use Rattle.embedded.specs.Settings.{IsSetFor, setting_of};

    ghost name = { ⟦<N as handler_threads::region_calls::ServerNaming>⟧.name };

    ghost setting = { λ s. setting_of s.server.now s.time (knows s.first.value) };

    ghost knows = { λ s. knows s.pass };

    ghost is_open = { λ s. IsPassOf s.server.now s.pass
        × IsSetFor ⟦<N as handler_threads::region_calls::ServerNaming>⟧.name s.time s.regions s.calls (knows s.first.value) (knows s.pass) };

    fn regions(&self) -> u32 {
        self.regions
    }

    fn handler(&self) -> u32 {
        self.pass.handler()
    }

    fn calls(&self) -> u32 {
        self.calls
    }

    fn put(
        &mut self,
        region: u32,
        durability: Durability,
        batch: Batch,
    ) -> Result<u64, PutRefusal> {
        self.calls += 1;
        self.server.put(
            self.rt,
            self.alloc,
            &mut self.pass,
            region,
            self.calls,
            self.time,
            durability,
            batch,
            &FreeGate,
        )
    }

    fn scan(&mut self, region: u32, from: &[u8], to: &[u8]) -> Result<ScanReply, NoMemory> {
        self.server
            .scan(self.alloc, &mut self.pass, region, from, to)
    }

    fn begin_scan(&mut self, region: u32, from: &[u8], to: &[u8]) -> Result<Scanner, NoMemory> {
        self.server
            .begin_scan(self.alloc, &mut self.pass, region, from, to)
    }

    fn get(&mut self, region: u32, row: &[u8], versions: u32) -> Result<ScanReply, NoMemory> {
        let behind = row_behind(self.alloc, row)?;
        let scanned = self
            .server
            .scan(self.alloc, &mut self.pass, region, row, behind.as_slice());
        masked(self.alloc, versions, scanned)
    }

    fn read_point(&mut self, region: u32) -> u64 {
        self.server.read_point(&mut self.pass, region)
    }

    fn flush(&mut self, region: u32, family: Option<&[u8]>) -> Result<u64, FlushRefusal> {
        self.calls += 1;
        self.server.flush(
            self.rt,
            self.alloc,
            &mut self.pass,
            region,
            self.calls,
            family,
        )
    }

    fn roll(&mut self) -> Result<Rolled, RollRefusal> {
        self.server.roll(self.rt, self.alloc, &mut self.pass)
    }
}
