//! An entry of its own from one whose cells stand elsewhere.

ghost use Rattle.std.specs.Prelude.{◌≡◌, [], IfOk};
ghost use Rattle.log_model.specs.Entry.{Entry as TheEntry, IsEntry};
ghost use Rattle.log_model.specs.Frame.{StartsCells};
ghost use Rattle.entry_frame.specs.Frame.{IsRefOf};

use crate::entry::Entry;
use crate::frame::EntryRef;
use crate::reading::form_of_kind;
use crate::writing::spell_body;
use kv_cell::{Batch, BatchError, Cell, Form, NoMemory, decode_in};
use std::alloc::Global;

/// An equal entry with cells and bytes of its own.
pub(crate) fn own_entry(alloc: Global, entry: &EntryRef<'_>) -> Result<Entry, NoMemory>
    requires { (e : TheEntry) × IsEntry e × IsRefOf entry.now e }
    ensures { (e : TheEntry) → IsEntry e → IsRefOf entry.now e → IfOk result (λ own. own ≡ e) }
{
    let batch = own_batch(alloc, entry)?;
    let bytes = spell_body(alloc, entry.kind, entry.body)?;
    Ok(Entry {
        region: entry.region,
        number: entry.number,
        time: entry.time,
        batch,
        bytes,
    })
}

/// The entry's cells and its table's name, copied.
pub(crate) fn own_batch(alloc: Global, entry: &EntryRef<'_>) -> Result<Batch, NoMemory>
    requires { (e : TheEntry) × IsEntry e × IsRefOf entry.now e }
    ensures { (e : TheEntry) → IsEntry e → IsRefOf entry.now e → IfOk result (λ own. own ≡ e.batch) }
{
    let cells = own_cells(alloc, form_of_kind(entry.kind), entry.cells, entry.count)?;
    let Ok(batch) = Batch::new(cells) else {
        unreachable!();
    };
    if entry.table.is_empty() {
        return Ok(batch);
    }
    match batch.of_table(alloc, entry.table) {
        Ok(named) => Ok(named),
        Err(BatchError::Memory) => Err(NoMemory),
        Err(BatchError::Count) => unreachable!(),
        Err(BatchError::TableLength) => unreachable!(),
        Err(BatchError::EntryLength) => unreachable!(),
    }
}

/// As many cells as stand in the bytes. Memory is taken for exactly so many.
fn own_cells(alloc: Global, form: Form, bytes: &[u8], count: u32) -> Result<Vec<Cell>, NoMemory>
    requires { StartsCells form bytes.now count [] }
    ensures { (s : StartsCells form bytes.now count []) → IfOk result (λ cells. cells.items ≡ s.cells) }
{
    let mut cells = Vec::with_capacity(alloc, count as usize)?;
    let mut rest = bytes;
    for _ in 0..count {
        let Ok((cell, len)) = decode_in(form, rest) else {
            unreachable!();
        };
        cells.push(cell.to_cell(alloc)?)?;
        rest = &rest[len..];
    }
    Ok(cells)
}
