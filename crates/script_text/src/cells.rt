//! The line of a cell.

ghost use Rattle.std.specs.Prelude.{◌≡◌, ◌<◌, ◌≤◌, IfOk, IsTrue, OnOk, Some, length, map};
ghost use Rattle.cell_model.specs.Batch.{body_length};
ghost use Rattle.cell_model.specs.Cell.{is_kind};
ghost use Rattle.kv_cell.specs.Kind.{code_of as kind_code};
ghost use Rattle.script_model.specs.Fields.{bytes_of, cell_of, code_of, first_of, here_fault, kind_fault, kind_here_fault, one_more, room_fault};
ghost use Rattle.script_model.specs.Fields.{sized_fault, tagged_with, ts_fault, ts_of};
ghost use Rattle.script_model.specs.Tables.{cell_fault, cell_in, cell_of_fields, due_fault, fields_fault, six_fields_fault, tagged_fault};
ghost use Rattle.script_lines.specs.Why.{Tells};

use crate::filling::Filling;
use kv_cell::{Cell, Kind, Octets, RareOctets};
use script_lines::{CellField, LineError, ScriptWhy, here, kind, kind_here, sized, stamp};
use script_model::Command;
use std::alloc::Global;

/// The last three of the six fields: a timestamp, a type and a value.
fn last_fields(
    alloc: Global,
    time: u64,
    ts: &[u8],
    name: &[u8],
    value: &[u8],
) -> Result<(u64, Kind, Octets), LineError>
    requires time { time < 9223372036854775808 }
    ensures ts { IfOk result (λ x. (x.0 ≡ ts_of time ts.now) × (x.0 < 9223372036854775808)) }
    ensures kind { IfOk result (λ x. (kind_code x.1 ≡ code_of name.now) × IsTrue (is_kind (kind_code x.1))) }
    ensures value { IfOk result (λ x. (x.2 ≡ bytes_of value.now) × (length x.2 ≤ 65536)) }
    ensures exact { Tells result (first_of (ts_fault time ts.now) (first_of (kind_fault name.now) (sized_fault 4 0 65536 value.now))) }
{
    let ts = stamp(time, ts)?;
    let kind = kind(name)?;
    let value = sized(alloc, value, 0, 65_536, CellField::Value)?;
    Ok((ts, kind, value))
}

/// The cell of the six fields that each line of a cell has.
fn six_fields(
    alloc: Global,
    time: u64,
    row: &[u8],
    family: &[u8],
    qualifier: &[u8],
    ts: &[u8],
    name: &[u8],
    value: &[u8],
) -> Result<Cell, LineError>
    requires time { time < 9223372036854775808 }
    ensures value { IfOk result (λ cell. cell ≡ cell_of time row.now family.now qualifier.now ts.now name.now value.now) }
    ensures exact { Tells result (six_fields_fault time row.now family.now qualifier.now ts.now name.now value.now) }
{
    let row = sized(alloc, row, 1, 32_767, CellField::Row)?;
    let family = sized(alloc, family, 1, 127, CellField::Family)?;
    let qualifier = sized(alloc, qualifier, 0, 32_767, CellField::Qualifier)?;
    let (ts, kind, value) = last_fields(alloc, time, ts, name, value)?;
    Ok(Cell {
        row,
        family,
        qualifier,
        ts,
        kind,
        value,
        tags: RareOctets::none(),
    })
}

/// Whether a cell without tags has room after those so far, and is one that the command takes.
fn is_taken(command: Command, filling: &Filling, cell: &Cell, name: &[u8]) -> Result<(), LineError>
    requires { cell.now.kind ≡ code_of name.now }
    ensures room { OnOk result (body_length (one_more filling.now cell.now) ≤ 1048576) }
    ensures exact { Tells result (first_of (room_fault filling.now cell.now) (kind_here_fault command name.now)) }
{
    filling.room(cell)?;
    kind_here(command, cell.kind, name)
}

/// The cell, where it has room after those so far and is one that the command takes.
fn taken(command: Command, filling: &Filling, cell: Cell, name: &[u8]) -> Result<Cell, LineError>
    requires { cell.kind ≡ code_of name.now }
    ensures same { IfOk result (λ taken. taken ≡ cell) }
    ensures room { IfOk result (λ taken. body_length (one_more filling.now taken) ≤ 1048576) }
    ensures exact { Tells result (first_of (room_fault filling.now cell) (kind_here_fault command name.now)) }
{
    is_taken(command, filling, &cell, name)?;
    Ok(cell)
}

/// A cell without tags that has room after those so far.
fn plain_line(
    alloc: Global,
    command: Command,
    time: u64,
    filling: &Filling,
    row: &[u8],
    family: &[u8],
    qualifier: &[u8],
    ts: &[u8],
    name: &[u8],
    value: &[u8],
) -> Result<Cell, LineError>
    requires time { time < 9223372036854775808 }
    ensures room { IfOk result (λ cell. body_length (one_more filling.now cell) ≤ 1048576) }
    ensures value { IfOk result (λ cell. cell ≡ cell_of time row.now family.now qualifier.now ts.now name.now value.now) }
    ensures exact { Tells result (cell_fault command time filling.now row.now family.now qualifier.now ts.now name.now value.now) }
{
    let cell = six_fields(alloc, time, row, family, qualifier, ts, name, value)?;
    Ok(taken(command, filling, cell, name)?)
}

/// The tags of a cell.
fn tags_of(alloc: Global, word: &[u8]) -> Result<RareOctets, LineError>
    ensures value { IfOk result (λ tags. tags ≡ bytes_of word.now) }
    ensures within { IfOk result (λ tags. length tags ≤ 4096) }
    ensures exact { Tells result (sized_fault 7 0 4096 word.now) }
{
    let tags = sized(alloc, word, 0, 4096, CellField::Tags)?;
    Ok(RareOctets::copy_of(alloc, tags.as_slice())?)
}

/// The cell with the tags that a word gives in place of its own.
fn tagged(alloc: Global, plain: Cell, word: &[u8]) -> Result<Cell, LineError>
    ensures value { IfOk result (λ cell. cell ≡ tagged_with plain word.now) }
    ensures exact { Tells result (sized_fault 7 0 4096 word.now) }
{
    let tags = tags_of(alloc, word)?;
    Ok(plain.with_owned_tags(tags))
}

/// Whether a cell with tags has room after those so far, where the command takes tags.
fn is_tagged_taken(command: Command, filling: &Filling, cell: &Cell) -> Result<(), LineError>
    ensures room { OnOk result (body_length (one_more filling.now cell.now) ≤ 1048576) }
    ensures exact { Tells result (first_of (room_fault filling.now cell.now) (here_fault command)) }
{
    filling.room(cell)?;
    here(command)
}

/// The cell with tags, where it has room after those so far and the command takes tags.
fn tagged_taken(command: Command, filling: &Filling, cell: Cell) -> Result<Cell, LineError>
    ensures same { IfOk result (λ taken. taken ≡ cell) }
    ensures room { IfOk result (λ taken. body_length (one_more filling.now taken) ≤ 1048576) }
    ensures exact { Tells result (first_of (room_fault filling.now cell) (here_fault command)) }
{
    is_tagged_taken(command, filling, &cell)?;
    Ok(cell)
}

/// A cell with a seventh field, its tags, that has room after those so far.
fn tagged_line(
    alloc: Global,
    command: Command,
    time: u64,
    filling: &Filling,
    row: &[u8],
    family: &[u8],
    qualifier: &[u8],
    ts: &[u8],
    name: &[u8],
    value: &[u8],
    tags: &[u8],
) -> Result<Cell, LineError>
    requires time { time < 9223372036854775808 }
    ensures room { IfOk result (λ cell. body_length (one_more filling.now cell) ≤ 1048576) }
    ensures value { IfOk result
        (λ cell. cell ≡ tagged_with (cell_of time row.now family.now qualifier.now ts.now name.now value.now) tags.now) }
    ensures exact { Tells result
        (tagged_fault command time filling.now row.now family.now qualifier.now ts.now name.now value.now tags.now) }
{
    let plain = six_fields(alloc, time, row, family, qualifier, ts, name, value)?;
    let cell = tagged(alloc, plain, tags)?;
    Ok(tagged_taken(command, filling, cell)?)
}

/// The cell of its fields, six or seven, with room after those so far.
fn cell_line(
    alloc: Global,
    command: Command,
    time: u64,
    filling: &Filling,
    fields: &[&[u8]],
) -> Result<Cell, LineError>
    requires time { time < 9223372036854775808 }
    ensures room { IfOk result (λ cell. body_length (one_more filling.now cell) ≤ 1048576) }
    ensures value { IfOk result (λ cell. cell_of_fields time (map (λ w. w.now) fields.now) ≡ Some cell) }
    ensures exact { Tells result (fields_fault command time filling.now (map (λ w. w.now) fields.now)) }
{
    match fields {
        [row, family, qualifier, ts, kind, value] => plain_line(
            alloc, command, time, filling, row, family, qualifier, ts, kind, value,
        ),
        [row, family, qualifier, ts, kind, value, tags] => tagged_line(
            alloc, command, time, filling, row, family, qualifier, ts, kind, value, tags,
        ),
        _ => Err(LineError::Wrong(ScriptWhy::Word)),
    }
}

/// The cell of a line where one is due, with room after those so far.
pub fn due_line(
    alloc: Global,
    command: Command,
    time: u64,
    filling: &Filling,
    words: &[&[u8]],
) -> Result<Cell, LineError>
    requires time { time < 9223372036854775808 }
    ensures room { IfOk result (λ cell. body_length (one_more filling.now cell) ≤ 1048576) }
    ensures value { IfOk result (λ cell. cell_in time (map (λ w. w.now) words.now) ≡ Some cell) }
    ensures exact { Tells result (due_fault command time filling.now (map (λ w. w.now) words.now)) }
{
    match words {
        [name, fields @ ..] if *name == b"cell".as_slice() => {
            cell_line(alloc, command, time, filling, fields)
        }
        _ => Err(LineError::Wrong(ScriptWhy::Count)),
    }
}
