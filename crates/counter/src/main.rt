//! A server of one's own, whole: two counters in the folder `hwal-store`. Run it again, and they count on.
#![tactic(auto)]

use anyhow::{Result, bail};
use disk_folder::{Access, FolderDisk};
use embedded_run::{Handler, Outcome, ScanReply, Session, run_handlers};
use kv_cell::{Batch, Cell, Durability, Kind};
use std::alloc::Global;

/// A handler: its counter is the row `row` of region 1, whose rows end before `end`.
#[derive(Drop)]
struct Counter {
    alloc: Global,
    row: &'static [u8],
    end: &'static [u8],
    count: u64,
    versions: usize,
}

/// A put of one cell.
fn counted(alloc: Global, row: &[u8], count: u64) -> Option<Batch> {
    let value = count.to_be_bytes();
    let cell = Cell::new(alloc, row, b"f", b"count", count, Kind::Put.code(), &value).ok()?;
    Batch::new(vec![in alloc; cell].ok()?).ok()
}

/// What stands in the newest cell of a row, 0 where there is none.
fn count_in(reply: &ScanReply) -> u64 {
    let [row] = reply.cells.as_slice() else {
        return 0;
    };
    <[u8; 8]>::try_from(row.cell().value.as_slice()).map_or(0, u64::from_be_bytes)
}

impl Handler for Counter {
    // What the handler promises of its work: nothing.
    ghost did = { λ _ _ _ _ _ _. Unit {0} };

    fn work<S: Session>(&mut self, at: &mut S) {
        for _ in 0..3 {
            // The newest version of the row, as deletes mask.
            let Ok(reply) = at.get(1, self.row, 1) else {
                return;
            };
            self.count = count_in(&reply).saturating_add(1);
            let Some(batch) = counted(self.alloc, self.row, self.count) else {
                return;
            };
            // A session has 2^32 - 1 puts and flushes. With `Sync` a put returns once its cells are on the disk.
            if at.calls() > 1000 || at.put(1, Durability::Sync, batch).is_err() {
                return;
            }
        }
        // All versions of all rows from `row` on and before `end`, deletes too.
        if let Ok(reply) = at.scan(1, self.row, self.end) {
            self.versions = reply.cells.len();
        }
        // Begins another log. Writes the region to a store file, unless the other handler is doing so.
        let _rolled = at.roll();
        if at.calls() <= 1000 {
            let _flushed = at.flush(1, None);
        }
    }
}

impl Counter {
    fn new(alloc: Global, row: &'static [u8], end: &'static [u8]) -> Counter {
        Counter {
            alloc,
            row,
            end,
            count: 0,
            versions: 0,
        }
    }
}

fn main(rt: HostRuntime) -> Result<()> {
    let alloc = rt.alloc();
    let disk = FolderDisk::new(&rt, alloc, Access::Writing);
    let counters = vec![in alloc;
        Counter::new(alloc, b"apples", b"b"),
        Counter::new(alloc, b"pears", b"q"),
    ]?;
    // Opens the store, or begins it; one region; the puts are dated 1000.
    match run_handlers(&rt, alloc, disk, 1000, 1, counters) {
        Outcome::Closed {
            handlers,
            broken: false,
            ..
        } => {
            for counter in handlers {
                let name = String::from_utf8_lossy(alloc, counter.row)?;
                println!(rt;
                    "{name}: {} in {} versions",
                    counter.count, counter.versions
                )?;
            }
            Ok(())
        }
        Outcome::Closed { .. } => bail!("a fault of the disk ended the log"),
        Outcome::Unclosed { .. } => bail!("out of memory"),
        Outcome::Unopened { .. } => bail!("the store could not be opened"),
    }
}
