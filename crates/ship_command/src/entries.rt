//! The lines of an entry and of a record.

ghost use Rattle.std.specs.Prelude.{◌≡◌, ◌++◌, IsTrue, IsErr, OnOk};
ghost use Rattle.disk_images.specs.Calls.{HasCause};
ghost use Rattle.script_model.specs.Outputs.{table_line};
ghost use Rattle.log_tail.specs.Position.{position_of};
ghost use Rattle.ship_queue.specs.Messages.{Entry_of, Record_of, placed};
ghost use Rattle.ship_command.specs.Sinks.{ship_line, position_line, message_text, IsCutIn};

use crate::cells::put_cells;
use crate::held::{Held, put, put_numbers, send};
use crate::tokens::put_token;
use disk_images::{Failed, Sink};
use entry_frame::Entry;
use log_tail::Position;

/// Holds the line of an entry: its file, its place there, its region, number and time, and the count of its cells.
#[tactic(auto, unfolding(crate::specs::Sinks::ship_line))]
fn put_head<K: Sink>(
    out: &mut K,
    held: &mut Held,
    at: Position,
    entry: &Entry,
) -> Result<(), Failed>
    ensures ok { IsTrue K.told
        → OnOk result (K.taken out.new ++ held.new.items ≡ (K.taken out.old ++ held.old.items) ++ ship_line (placed at entry.now)) }
    ensures cut { IsTrue K.told → IsErr result → IsCutIn (K.taken out.new) (K.taken out.old ++ held.old.items) (ship_line (placed at entry.now)) }
    ensures cause { HasCause (K.faults out.old) (K.faults out.new) (IsErr result) }
{
    put_numbers(out, held, b"ship ", at.file, at.entries)?;
    put_numbers(out, held, b" ", entry.region as u64, entry.number)?;
    put_numbers(out, held, b" ", entry.time, entry.batch.len() as u64)?;
    put(out, held, b"\n")
}

/// Holds the line of a table's name, nothing where it is empty.
fn put_table<K: Sink>(out: &mut K, held: &mut Held, name: &[u8]) -> Result<(), Failed>
    ensures ok { IsTrue K.told → OnOk result (K.taken out.new ++ held.new.items ≡ (K.taken out.old ++ held.old.items) ++ table_line name.now) }
    ensures cut { IsTrue K.told → IsErr result → IsCutIn (K.taken out.new) (K.taken out.old ++ held.old.items) (table_line name.now) }
    ensures cause { HasCause (K.faults out.old) (K.faults out.new) (IsErr result) }
{
    if name.is_empty() {
        return Ok(());
    }
    put(out, held, b"table ")?;
    put_token(out, held, name)?;
    put(out, held, b"\n")
}

/// Writes an entry's line, that of its table's name, and the lines of its cells. It takes no memory.
pub(crate) fn write_entry<K: Sink>(out: &mut K, at: Position, entry: &Entry) -> Result<(), Failed>
    ensures ok { IsTrue K.told → OnOk result (K.taken out.new ≡ K.taken out.old ++ message_text (Entry_of (placed at entry.now))) }
    ensures cut { IsTrue K.told → IsErr result → IsCutIn (K.taken out.new) (K.taken out.old) (message_text (Entry_of (placed at entry.now))) }
    ensures cause { HasCause (K.faults out.old) (K.faults out.new) (IsErr result) }
{
    let mut held = Held::new();
    put_head(out, &mut held, at, entry)?;
    put_table(out, &mut held, entry.batch.table())?;
    put_cells(out, &mut held, entry.number, entry.batch.as_slice())?;
    send(out, &mut held)
}

/// Writes the line of a record. It takes no memory.
#[tactic(auto, unfolding(crate::specs::Sinks::position_line))]
pub(crate) fn write_record<K: Sink>(out: &mut K, at: Position) -> Result<(), Failed>
    ensures ok { IsTrue K.told → OnOk result (K.taken out.new ≡ K.taken out.old ++ message_text (Record_of (position_of at))) }
    ensures cut { IsTrue K.told → IsErr result → IsCutIn (K.taken out.new) (K.taken out.old) (message_text (Record_of (position_of at))) }
    ensures cause { HasCause (K.faults out.old) (K.faults out.new) (IsErr result) }
{
    let mut held = Held::new();
    put_numbers(out, &mut held, b"position ", at.file, at.entries)?;
    put(out, &mut held, b"\n")?;
    send(out, &mut held)
}
