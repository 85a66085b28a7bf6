//! What `dump` prints of a log file.

ghost use Rattle.std.specs.Prelude.{◌≡◌, ◌⊎◌, ◌∷◌, ◌++◌, [], IfOk, OnOk};
ghost use Rattle.std.specs.List.{flat_map};
ghost use Rattle.std.specs.Fmt.{decimal};
ghost use Rattle.cell_model.specs.Cell.{Cell as TheCell};
ghost use Rattle.log_model.specs.declared.name.NameKind.TheVariants as kinds;
ghost use Rattle.script_model.specs.Report.{line, cell_line};
ghost use Rattle.script_model.specs.Outputs.{table_line, entry_text, ended_line, dump_text as text_of};
ghost use Rattle.wal_dump.specs.Kinds.{kind_word};

use disk_images::{Name, NameKind};
use entry_frame::Entry;
use kv_cell::{Cell, NoMemory, Octets};
use log_file::LogText;
use report_text::{append, append_cell, append_end, append_number, append_numbers, append_token};
use std::alloc::Global;

/// The text of a log or old log of this name: its name, its entries in the order of the file, each with the name of its
/// table, if it has one, and its cells as they are stored, the count of the end frame, if it has one, and the line that
/// ends all.
pub fn dump_text(alloc: Global, name: Name, text: &LogText) -> Result<Octets, NoMemory>
    requires { (name.kind ≡ kinds.Log) ⊎ (name.kind ≡ kinds.Old) }
    ensures { IfOk result (λ bytes. bytes ≡ text_of (kind_word name.kind) name.number text.now.entries text.now.ended) }
{
    let mut out = Vec::new(alloc);
    append_head(&mut out, name)?;
    append_entries(&mut out, text.entries.as_slice())?;
    append_ended(&mut out, text.ended)?;
    append_end(&mut out, 0)?;
    Ok(Octets::of(out))
}

/// Appends the line of a log's name.
fn append_head(out: &mut Vec<u8>, name: Name) -> Result<(), NoMemory>
    ensures { OnOk result (out.new.items ≡ out.old.items ++ line (kind_word name.kind ∷ decimal name.number ∷ [])) }
{
    append(out, kind_name(name.kind))?;
    append_number(out, b" ", name.number)?;
    append(out, b"\n")
}

fn kind_name(kind: NameKind) -> &'static [u8]
    ensures { result.now ≡ kind_word kind }
{
    match kind {
        NameKind::Log => b"log",
        NameKind::Old => b"old",
        NameKind::Store => b"store",
        NameKind::Edits => b"edits",
    }
}

fn append_entries(out: &mut Vec<u8>, entries: &[Entry]) -> Result<(), NoMemory>
    ensures { OnOk result (out.new.items ≡ out.old.items ++ flat_map entry_text entries.now) }
{
    for entry in entries {
        append_entry(out, entry)?;
    }
    Ok(())
}

/// Appends an entry's line, that of its table's name, and the lines of its cells.
#[tactic(auto, unfolding(script_model::specs::Outputs::entry_text))]
fn append_entry(out: &mut Vec<u8>, entry: &Entry) -> Result<(), NoMemory>
    ensures { OnOk result (out.new.items ≡ out.old.items ++ entry_text entry.now) }
{
    append_numbers(out, b"entry ", entry.region as u64, entry.number)?;
    append_numbers(out, b" ", entry.time, entry.batch.len() as u64)?;
    append(out, b"\n")?;
    append_table(out, entry.batch.table())?;
    append_cells(out, entry.number, entry.batch.as_slice())
}

/// Appends the line of a table's name, nothing where it is empty.
fn append_table(out: &mut Vec<u8>, name: &[u8]) -> Result<(), NoMemory>
    ensures { OnOk result (out.new.items ≡ out.old.items ++ table_line name.now) }
{
    if name.is_empty() {
        return Ok(());
    }
    append(out, b"table ")?;
    append_token(out, name)?;
    append(out, b"\n")
}

/// Appends the lines of the cells of one edit.
fn append_cells(out: &mut Vec<u8>, number: u64, cells: &[Cell]) -> Result<(), NoMemory>
    ensures { OnOk result (out.new.items ≡ out.old.items ++ flat_map (λ (c : TheCell). cell_line (number, c)) cells.now) }
{
    for cell in cells {
        append_cell(out, number, cell)?;
    }
    Ok(())
}

/// Appends the line of an end frame's count, nothing where there is none.
fn append_ended(out: &mut Vec<u8>, ended: Option<u64>) -> Result<(), NoMemory>
    ensures { OnOk result (out.new.items ≡ out.old.items ++ ended_line ended) }
{
    match ended {
        Some(count) => {
            append_number(out, b"ended ", count)?;
            append(out, b"\n")
        }
        None => Ok(()),
    }
}
