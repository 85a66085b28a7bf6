//! A handler that puts a person.

ghost use Rattle.std.specs.Prelude.{◌≡◌, ◌∷◌, [], IfSome};
ghost use Rattle.cell_model.specs.Batch.{batch_of};
ghost use Rattle.examples.specs.Persons.{person};

use anyhow::Result;
use embedded_run::{Handler, Session};
use kv_cell::{Batch, Cell, Durability, Kind};
use std::alloc::Global;

/// A clerk with its person, and what it has learnt.
#[derive(Drop)]
pub struct Clerk {
    alloc: Global,
    row: &'static [u8],
    name: &'static [u8],
    /// The sequence id of its put, once it was acknowledged.
    acknowledged: Option<u64>,
    /// How many cells it saw then.
    seen: Option<usize>,
}

/// A batch of one cell: the person's name.
fn name_of(alloc: Global, row: &[u8], name: &[u8]) -> Option<Batch>
    ensures { IfSome result (λ batch. batch ≡ batch_of (person row.now name.now ∷ [])) }
{
    let mut cells = Vec::new(alloc);
    let time = 1_700_000_000_000;
    let cell = Cell::new(alloc, row, b"info", b"name", time, Kind::Put.code(), name).ok()?;
    cells.push(cell).ok()?;
    Batch::new(cells).ok()
}

impl Clerk {
    pub fn new(alloc: Global, row: &'static [u8], name: &'static [u8]) -> Clerk {
        Clerk {
            alloc,
            row,
            name,
            acknowledged: None,
            seen: None,
        }
    }

    /// Prints what it has learnt.
    pub fn print<R: Print + AllocGlobal>(&self, rt: &R) -> Result<()> {
        let name = String::from_utf8_lossy(rt.alloc(), self.name)?;
        match (self.acknowledged, self.seen) {
            (Some(_number), Some(_cells)) => println!(rt; "{name} is acknowledged, and seen")?,
            (Some(_number), None) => println!(rt; "{name} is acknowledged")?,
            (None, _) => println!(rt; "{name} is not acknowledged")?,
        }
        Ok(())
    }
}

impl Handler for Clerk {
    ghost use Rattle.std.specs.Prelude.{◌≡◌, ℕ, Some};
    ghost use Rattle.examples.specs.Persons.{KnowsPerson};

    // What the clerk promises of its work: where it calls its put acknowledged, its pass knows that the edit of that sequence id is its own,
    // has this person, and is durable.
    ghost did = { λ before name time first last after. (n : ℕ) → after.acknowledged ≡ Some n → KnowsPerson after.row.now after.name.now n last };

    fn work<S: Session>(&mut self, at: &mut S) {
        self.acknowledged = None;
        let Some(batch) = name_of(self.alloc, self.row, self.name) else {
            return;
        };
        // With `Sync` it returns once the log has the cells on its disk.
        let put = at.put(1, Durability::Sync, batch);
        // All rows. A handler reads no point before one that it has seen, so what it put is there.
        let scanned = at.scan(1, b"", b"");
        // Writes the region to a store file, or finds the other clerk doing so.
        let _flushed = at.flush(1, None);
        self.acknowledged = put.ok();
        self.seen = scanned.ok().map(|reply| reply.cells.len());
    }
}
