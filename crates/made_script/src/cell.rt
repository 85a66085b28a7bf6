//! The cell and the batch of a put.

ghost use Rattle.std.specs.Prelude.{◌≡◌, ◌^◌, ◌<◌, [], ◌∷◌, IfOk};
ghost use Rattle.cell_model.specs.Batch.{batch_of};
ghost use Rattle.made_script.specs.Made.{made_cell};

use kv_cell::{Batch, Cell, Kind, NoMemory, Octets, RareOctets};
use std::alloc::Global;
use std::vec;

/// The cell of a handler's call with this number, made from `x`. It has no tags.
pub fn make_cell(alloc: Global, call: u32, x: u64) -> Result<Cell, NoMemory>
    ensures { IfOk result (λ cell. cell ≡ made_cell call x) }
{
    let value = vec![in alloc; (x % 256) as u8; 1 + (x >> 60) as usize]?;
    Ok(Cell {
        row: Octets::copy_of(alloc, &x.to_be_bytes())?,
        family: Octets::copy_of(alloc, b"f")?,
        qualifier: Octets::copy_of(alloc, b"q")?,
        ts: u64::from(call),
        kind: Kind::Put,
        value: Octets::of(value),
        tags: RareOctets::none(),
    })
}

/// The batch of that cell alone, of no named table.
pub fn make_batch(alloc: Global, call: u32, x: u64) -> Result<Batch, NoMemory>
    ensures { IfOk result (λ batch. batch ≡ batch_of (made_cell call x ∷ [])) }
{
    let mut cells = Vec::with_capacity(alloc, 1)?;
    cells.push(make_cell(alloc, call, x)?)?;
    match Batch::new(cells) {
        Ok(batch) => Ok(batch),
        Err(_) => unreachable!(),
    }
}
