//! Cell lines, and the line of a region in front of its cells.

ghost use Rattle.std.specs.Prelude.{◌≡◌, ◌∷◌, ◌++◌, OnOk, take, vec_len};
ghost use Rattle.std.specs.List.{flat_map, AllByRecursion};
ghost use Rattle.kv_cell.specs.Kind.{code_of};
ghost use Rattle.kv_cell.specs.Laws.{AreBytes};
ghost use Rattle.script_model.specs.Outputs.{region_line};
ghost use Rattle.script_model.specs.Report.{cell_line};
ghost use Rattle.script_model.specs.Report.{kind_name as name_of_code};
ghost use Rattle.script_model.specs.Text.{printed};
ghost use Rattle.report_text.specs.Reading.{IsNumberedCell};
ghost use Rattle.report_text.specs.Texts.{columns_text, stamp_text, tags_text};

use crate::tokens::append_token;
use crate::words::{append, append_number};
use kv_cell::{Cell, Kind, NoMemory};
use mem_segments::Row;

fn kind_name(kind: Kind) -> &'static [u8]
    ensures { result.now ≡ name_of_code (code_of kind) }
{
    match kind {
        Kind::Put => b"put",
        Kind::Delete => b"delete",
        Kind::DeleteFamilyVersion => b"delete-family-version",
        Kind::DeleteColumn => b"delete-column",
        Kind::DeleteFamily => b"delete-family",
    }
}

/// Appends a space and a token.
fn append_word(out: &mut Vec<u8>, bytes: &[u8]) -> Result<(), NoMemory>
    ensures ok { OnOk result (out.new.items ≡ out.old.items ++ (32 ∷ printed bytes.now)) }
    ensures reads { OnOk result (AreBytes bytes.now) }
    ensures kept { take (vec_len out.old) out.new.items ≡ out.old.items }
{
    append(out, b" ")?;
    append_token(out, bytes)
}

#[tactic(auto, unfolding(crate::specs::Texts::columns_text))]
fn append_columns(
    out: &mut Vec<u8>,
    row: &[u8],
    family: &[u8],
    qualifier: &[u8],
) -> Result<(), NoMemory>
    ensures ok { OnOk result (out.new.items ≡ out.old.items ++ columns_text row.now family.now qualifier.now) }
    ensures reads { OnOk result (AreBytes row.now × AreBytes family.now × AreBytes qualifier.now) }
    ensures kept { take (vec_len out.old) out.new.items ≡ out.old.items }
{
    append_word(out, row)?;
    append_word(out, family)?;
    append_word(out, qualifier)
}

#[tactic(auto, unfolding(crate::specs::Texts::stamp_text))]
fn append_stamp(out: &mut Vec<u8>, ts: u64, kind: Kind, value: &[u8]) -> Result<(), NoMemory>
    ensures ok { OnOk result (out.new.items ≡ out.old.items ++ stamp_text ts (code_of kind) value.now) }
    ensures reads { OnOk result (AreBytes value.now) }
    ensures kept { take (vec_len out.old) out.new.items ≡ out.old.items }
{
    append_number(out, b" ", ts)?;
    append(out, b" ")?;
    append(out, kind_name(kind))?;
    append_word(out, value)
}

/// Appends the tags after a space, nothing where there are none.
fn append_tags(out: &mut Vec<u8>, tags: &[u8]) -> Result<(), NoMemory>
    ensures ok { OnOk result (out.new.items ≡ out.old.items ++ tags_text tags.now) }
    ensures reads { OnOk result (AreBytes tags.now) }
    ensures kept { take (vec_len out.old) out.new.items ≡ out.old.items }
{
    if tags.is_empty() {
        return Ok(());
    }
    append_word(out, tags)
}

/// Appends the line of a cell with the number of its edit: its tags are the last word exactly where it has some. After a refusal the
/// vector begins with what it had.
pub fn append_cell(out: &mut Vec<u8>, number: u64, cell: &Cell) -> Result<(), NoMemory>
    ensures ok { OnOk result (out.new.items ≡ out.old.items ++ cell_line (number, cell.now)) }
    ensures reads { OnOk result (IsNumberedCell (number, cell.now)) }
    ensures kept { take (vec_len out.old) out.new.items ≡ out.old.items }
{
    let row = cell.row.as_slice();
    let family = cell.family.as_slice();
    let qualifier = cell.qualifier.as_slice();
    let value = cell.value.as_slice();
    let tags = cell.tags.as_slice();
    append_number(out, b"cell ", number)?;
    append_columns(out, row, family, qualifier)?;
    append_stamp(out, cell.ts, cell.kind, value)?;
    append_tags(out, tags)?;
    append(out, b"\n")?;
    Ok(())
}

/// Appends the lines of numbered cells in their order. After a refusal the vector begins with what it had.
pub fn append_cells(out: &mut Vec<u8>, rows: &[Row]) -> Result<(), NoMemory>
    ensures ok { OnOk result (out.new.items ≡ out.old.items ++ flat_map cell_line rows.now) }
    ensures reads { OnOk result (AllByRecursion IsNumberedCell rows.now) }
    ensures kept { take (vec_len out.old) out.new.items ≡ out.old.items }
{
    for row in rows {
        append_cell(out, row.number(), row.cell())?;
    }
    Ok(())
}

/// Appends the line of a region. After a refusal the vector begins with what it had.
#[tactic(auto, unfolding(script_model::specs::Outputs::region_line))]
pub fn append_region(out: &mut Vec<u8>, region: u32) -> Result<(), NoMemory>
    ensures ok { OnOk result (out.new.items ≡ out.old.items ++ region_line region) }
    ensures kept { take (vec_len out.old) out.new.items ≡ out.old.items }
{
    append_number(out, b"region ", region as u64)?;
    append(out, b"\n")
}
