//! The lines of cells, on their way to a sink.

ghost use Rattle.std.specs.Prelude.{◌≡◌, ◌++◌, IsTrue, IsErr, OnOk};
ghost use Rattle.std.specs.List.{flat_map};
ghost use Rattle.kv_cell.specs.Kind.{code_of};
ghost use Rattle.cell_model.specs.Cell.{Cell as TheCell};
ghost use Rattle.disk_images.specs.Calls.{HasCause};
ghost use Rattle.script_model.specs.Report.{cell_line};
ghost use Rattle.script_model.specs.Report.{kind_name as name_of_code};
ghost use Rattle.report_text.specs.Texts.{columns_text, stamp_text, tags_text};
ghost use Rattle.ship_command.specs.Sinks.{IsCutIn};

use crate::held::{Held, put, put_number};
use crate::tokens::put_word;
use disk_images::{Failed, Sink};
use kv_cell::{Cell, Kind};

fn kind_name(kind: Kind) -> &'static [u8]
    ensures { result.now ≡ name_of_code (code_of kind) }
{
    match kind {
        Kind::Put => b"put",
        Kind::Delete => b"delete",
        Kind::DeleteFamilyVersion => b"delete-family-version",
        Kind::DeleteColumn => b"delete-column",
        Kind::DeleteFamily => b"delete-family",
    }
}

#[tactic(auto, unfolding(report_text::specs::Texts::columns_text))]
fn put_columns<K: Sink>(
    out: &mut K,
    held: &mut Held,
    row: &[u8],
    family: &[u8],
    qualifier: &[u8],
) -> Result<(), Failed>
    ensures ok { IsTrue K.told → OnOk result
        (K.taken out.new ++ held.new.items ≡ (K.taken out.old ++ held.old.items) ++ columns_text row.now family.now qualifier.now) }
    ensures cut { IsTrue K.told → IsErr result
        → IsCutIn (K.taken out.new) (K.taken out.old ++ held.old.items) (columns_text row.now family.now qualifier.now) }
    ensures cause { HasCause (K.faults out.old) (K.faults out.new) (IsErr result) }
{
    put_word(out, held, row)?;
    put_word(out, held, family)?;
    put_word(out, held, qualifier)
}

#[tactic(auto, unfolding(report_text::specs::Texts::stamp_text))]
fn put_stamp<K: Sink>(
    out: &mut K,
    held: &mut Held,
    ts: u64,
    kind: Kind,
    value: &[u8],
) -> Result<(), Failed>
    ensures ok { IsTrue K.told
        → OnOk result (K.taken out.new ++ held.new.items ≡ (K.taken out.old ++ held.old.items) ++ stamp_text ts (code_of kind) value.now) }
    ensures cut { IsTrue K.told → IsErr result → IsCutIn (K.taken out.new) (K.taken out.old ++ held.old.items) (stamp_text ts (code_of kind) value.now) }
    ensures cause { HasCause (K.faults out.old) (K.faults out.new) (IsErr result) }
{
    put_number(out, held, b" ", ts)?;
    put(out, held, b" ")?;
    put(out, held, kind_name(kind))?;
    put_word(out, held, value)
}

/// Holds the tags after a space, nothing where there are none.
fn put_tags<K: Sink>(out: &mut K, held: &mut Held, tags: &[u8]) -> Result<(), Failed>
    ensures ok { IsTrue K.told → OnOk result (K.taken out.new ++ held.new.items ≡ (K.taken out.old ++ held.old.items) ++ tags_text tags.now) }
    ensures cut { IsTrue K.told → IsErr result → IsCutIn (K.taken out.new) (K.taken out.old ++ held.old.items) (tags_text tags.now) }
    ensures cause { HasCause (K.faults out.old) (K.faults out.new) (IsErr result) }
{
    if tags.is_empty() {
        return Ok(());
    }
    put_word(out, held, tags)
}

/// Holds the line of a cell with the number of its edit.
fn put_cell<K: Sink>(out: &mut K, held: &mut Held, number: u64, cell: &Cell) -> Result<(), Failed>
    ensures ok { IsTrue K.told
        → OnOk result (K.taken out.new ++ held.new.items ≡ (K.taken out.old ++ held.old.items) ++ cell_line (number, cell.now)) }
    ensures cut { IsTrue K.told → IsErr result → IsCutIn (K.taken out.new) (K.taken out.old ++ held.old.items) (cell_line (number, cell.now)) }
    ensures cause { HasCause (K.faults out.old) (K.faults out.new) (IsErr result) }
{
    let row = cell.row.as_slice();
    let family = cell.family.as_slice();
    let qualifier = cell.qualifier.as_slice();
    let value = cell.value.as_slice();
    let tags = cell.tags.as_slice();
    put_number(out, held, b"cell ", number)?;
    put_columns(out, held, row, family, qualifier)?;
    put_stamp(out, held, cell.ts, cell.kind, value)?;
    put_tags(out, held, tags)?;
    put(out, held, b"\n")?;
    Ok(())
}

/// Holds the lines of the cells of one edit.
pub(crate) fn put_cells<K: Sink>(
    out: &mut K,
    held: &mut Held,
    number: u64,
    cells: &[Cell],
) -> Result<(), Failed>
    ensures ok { IsTrue K.told → OnOk result
        (K.taken out.new ++ held.new.items ≡ (K.taken out.old ++ held.old.items) ++ flat_map (λ (c : TheCell). cell_line (number, c)) cells.now) }
    ensures cut { IsTrue K.told → IsErr result
        → IsCutIn (K.taken out.new) (K.taken out.old ++ held.old.items) (flat_map (λ (c : TheCell). cell_line (number, c)) cells.now) }
    ensures cause { HasCause (K.faults out.old) (K.faults out.new) (IsErr result) }
{
    for cell in cells {
        put_cell(out, held, number, cell)?;
    }
    Ok(())
}
