//! Reading the bytes of a store file.

ghost use Rattle.std.specs.Prelude.{◌≡◌, ◌≢◌, ◌↔◌, ◌≤◌, ◌+◌, ℕ, List, [], ◌∷◌, ◌++◌, length, drop, Some, None, IsTrue, IfOk, MatchOption, MatchResult};
ghost use Rattle.cell_model.specs.Order.{NumberedCell};
ghost use Rattle.cell_model.specs.Merge.{IsRising};
ghost use Rattle.cell_model.specs.Cell.{number_at};
ghost use Rattle.cell_model.specs.declared.form.Form.TheVariants.{Plain, Tagged};
ghost use Rattle.log_model.specs.StoreText.{IsThere, IsStoreText, numbers_in, family_in, field_fault, IsStoreDamaged};
ghost use Rattle.store_file.specs.declared.reading.TheConstants.{PLAIN_WORD, TAGGED_WORD};
ghost use Rattle.file_base.specs.Refusal.{IfDamaged};
ghost use Rattle.store_file.specs.Reading.{AreFields, AreRead, AreNumbers, numbers_fault, FrontsPair, StandsUpTo, NoneIsNext, LacksPair};
ghost use Rattle.store_file.specs.Text.{store_in};

use crate::list::StoreText;
use file_base::ReadRefusal;
use kv_cell::{
    Cell, CellRef, Form, NoMemory, NumberedCells, Octets, compare_numbered, decode_in, u32_at,
    u64_at,
};
use log_model::{LAST_EDIT, OPEN_GATE};
use std::alloc::Global;
use std::cmp::Ordering;

/// `HWS1`.
const PLAIN_WORD: u32 = 0x4857_5331;

/// `HWS2`.
const TAGGED_WORD: u32 = 0x4857_5332;

/// The fields after the gate.
#[derive(Clone, Copy)]
struct Fields<'a> {
    form: Form,
    scope: u8,
    family: &'a [u8],
    /// Where the two sequence ids stand.
    at: usize,
    from: u64,
    to: u64,
    count: u64,
}

/// The text of a region's store that these bytes are, or None exactly where it isn't there; where they are no text, the
/// place at which they are damaged.
pub(crate) fn parse_store(
    alloc: Global,
    region: u32,
    bytes: &[u8],
) -> Result<Option<StoreText>, ReadRefusal>
    ensures text { IfOk result (λ text. MatchOption text (IsThere bytes.now → ⊥)
        (λ t. IsThere bytes.now × IsStoreText region bytes.now (store_in region t))) }
    ensures damaged { IfDamaged result (λ at. IsStoreDamaged region bytes.now at) }
    ensures no_fault { result ≢ Err ReadRefusal.DiskFault }
{
    if !is_there(bytes) {
        return Ok(None);
    }
    let fields = match read_fields(region, bytes) {
        Ok(fields) => fields,
        Err(at) => return Err(ReadRefusal::Damaged { at }),
    };
    let family = Octets::copy_of(alloc, fields.family)?;
    let (cells, end) = read_cells(alloc, bytes, fields)?;
    if end < bytes.len() {
        return Err(ReadRefusal::Damaged { at: end as u64 });
    }
    Ok(Some(StoreText {
        scope: fields.scope,
        family,
        from: fields.from,
        to: fields.to,
        cells,
    }))
}

/// Whether a store is there: the gate is open, and a byte follows it.
fn is_there(bytes: &[u8]) -> bool
    ensures { IsTrue result ↔ IsThere bytes.now }
{
    bytes.len() > 1 && bytes[0] == OPEN_GATE
}

/// The fields, or the offset of the first that is wrong or not whole.
fn read_fields(region: u32, bytes: &[u8]) -> Result<Fields<'_>, u64>
    ensures { MatchResult result
        (λ f. AreRead f.form region bytes.now f.scope f.family.now f.at f.from f.to f.count)
        (λ at. field_fault region bytes.now ≡ Some at) }
{
    if bytes.len() < 5 {
        return Err(1);
    }
    let word = u32_at(bytes, 1);
    if word == PLAIN_WORD {
        return read_plain(region, bytes);
    }
    if word == TAGGED_WORD {
        return read_tagged(region, bytes);
    }
    Err(1)
}

/// The fields after `HWS1`.
#[tactic(auto, using(std::proofs::lemmas::Bool::Decides::nat_tests, crate::proofs::FieldLaws::plain_fault))]
fn read_plain(region: u32, bytes: &[u8]) -> Result<Fields<'_>, u64>
    requires word { number_at 1 4 bytes.now ≡ PLAIN_WORD }
    requires long { 5 ≤ length bytes.now }
    ensures { MatchResult result
        (λ f. AreRead f.form region bytes.now f.scope f.family.now f.at f.from f.to f.count)
        (λ at. field_fault region bytes.now ≡ Some at) }
{
    if bytes.len() < 9 || u32_at(bytes, 5) != region {
        return Err(5);
    }
    let (from, to, count) = read_numbers(bytes, 9)?;
    Ok(Fields {
        form: Form::Plain,
        scope: 0,
        family: &[],
        at: 9,
        from,
        to,
        count,
    })
}

/// The fields after `HWS2`.
#[tactic(auto, using(std::proofs::lemmas::Bool::Decides::nat_tests, crate::proofs::FieldLaws::tagged_fault))]
fn read_tagged(region: u32, bytes: &[u8]) -> Result<Fields<'_>, u64>
    requires word { number_at 1 4 bytes.now ≡ TAGGED_WORD }
    requires long { 5 ≤ length bytes.now }
    ensures { MatchResult result
        (λ f. AreRead f.form region bytes.now f.scope f.family.now f.at f.from f.to f.count)
        (λ at. field_fault region bytes.now ≡ Some at) }
{
    let n = bytes.len();
    if n < 9 || u32_at(bytes, 5) != region {
        return Err(5);
    }
    if n < 10 || bytes[9] > 1 {
        return Err(9);
    }
    if n < 11 || bytes[10] > 127 || (bytes[9] == 1 && bytes[10] != 0) {
        return Err(10);
    }
    let at = 11 + bytes[10] as usize;
    if n < at {
        return Err(11);
    }
    let (from, to, count) = read_numbers(bytes, at)?;
    Ok(Fields {
        form: Form::Tagged,
        scope: bytes[9],
        family: &bytes[11..at],
        at,
        from,
        to,
        count,
    })
}

/// The two sequence ids and the count that stand from a place on, or the offset of the first that is wrong or not whole.
#[tactic(auto, using(std::proofs::lemmas::Bool::Decides::nat_tests))]
fn read_numbers(bytes: &[u8], at: usize) -> Result<(u64, u64, u64), u64>
    requires { at ≤ length bytes.now }
    ensures { MatchResult result
        (λ x. AreNumbers bytes.now at x.0 x.1 x.2)
        (λ place. numbers_fault bytes.now at ≡ Some place) }
{
    let n = bytes.len();
    if n < at + 8 {
        return Err(at as u64);
    }
    let from = u64_at(bytes, at);
    if from == 0 {
        return Err(at as u64);
    }
    if n < at + 16 {
        return Err(at as u64 + 8);
    }
    let to = u64_at(bytes, at + 8);
    if to < from {
        return Err(at as u64);
    }
    if to > LAST_EDIT {
        return Err(at as u64 + 8);
    }
    if n < at + 24 {
        return Err(at as u64 + 16);
    }
    Ok((from, to, u64_at(bytes, at + 16)))
}

/// The counted cells, and where the last one ends.
fn read_cells(
    alloc: Global,
    bytes: &[u8],
    fields: Fields<'_>,
) -> Result<(NumberedCells, usize), ReadRefusal>
    requires fields { AreFields fields.form bytes.now fields.from fields.to fields.count }
    requires place { fields.at ≡ numbers_in fields.form bytes.now }
    requires family { fields.family.now ≡ family_in fields.form bytes.now }
    ensures cells { IfOk result (λ r. StandsUpTo fields.entry.form bytes.now r.0 r.1 × (length r.0 ≡ fields.entry.count)) }
    ensures damaged { IfDamaged result (λ at. LacksPair fields.entry.form bytes.now at) }
    ensures no_fault { result ≢ Err ReadRefusal.DiskFault }
{
    let mut cells = Vec::new(alloc);
    let mut at = fields.at + 24;
    for _ in 0..fields.count {
        match take_pair(alloc, bytes, at, fields, &mut cells)? {
            Some(end) => at = end,
            None => return Err(ReadRefusal::Damaged { at: at as u64 }),
        }
    }
    Ok((NumberedCells::of(cells), at))
}

/// Adds the numbered cell at a place to those that stand before it, and gives the place after it. None where no whole
/// one in range stands there, or it isn't after them in order.
fn take_pair(
    alloc: Global,
    bytes: &[u8],
    at: usize,
    fields: Fields<'_>,
    cells: &mut Vec<(u64, Cell)>,
) -> Result<Option<usize>, NoMemory>
    requires fields { AreFields fields.form bytes.now fields.from fields.to fields.count }
    requires family { fields.family.now ≡ family_in fields.form bytes.now }
    requires stands { StandsUpTo fields.form bytes.now cells.old.items at }
    ensures { IfOk result (λ taken. MatchOption taken (NoneIsNext fields.entry.form bytes.now cells.old.items)
        (λ end. StandsUpTo fields.entry.form bytes.now cells.new.items end × (length cells.new.items ≡ length cells.old.items + 1))) }
{
    let Some((number, cell, len)) = pair_at(
        fields.form,
        fields.family,
        &bytes[at..],
        fields.from,
        fields.to,
    ) else {
        return Ok(None);
    };
    let cell = cell.to_cell(alloc)?;
    if !is_behind(cells.as_slice(), number, &cell) {
        return Ok(None);
    }
    cells.push((number, cell))?;
    Ok(Some(at + len))
}

/// The sequence id and the cell at the front of bytes, and how long they are together. None where they aren't whole, the
/// sequence id isn't between the two, or the cell isn't of the family.
fn pair_at<'a>(
    form: Form,
    family: &[u8],
    bytes: &'a [u8],
    from: u64,
    to: u64,
) -> Option<(u64, CellRef<'a>, usize)>
    ensures { MatchOption result
        ((x : NumberedCell) (rest : List ℕ) → FrontsPair form family.now from to bytes.now x rest → ⊥)
        (λ p. (p.2 ≤ length bytes.now) × FrontsPair form family.now from to bytes.now (p.0, p.1) (drop p.2 bytes.now)) }
{
    if bytes.len() < 8 {
        return None;
    }
    let number = u64_at(bytes, 0);
    if number < from || number > to {
        return None;
    }
    let Ok((cell, len)) = decode_in(form, &bytes[8..]) else {
        return None;
    };
    if !is_of(family, cell.family) {
        return None;
    }
    Some((number, cell, 8 + len))
}

/// Whether a cell with its own family may stand in a store of this one, or of any where this one is empty.
fn is_of(family: &[u8], own: &[u8]) -> bool
    ensures { IsTrue result ↔ (family.now ≢ [] → own.now ≡ family.now) }
{
    family.is_empty() || own == family
}

/// Whether a numbered cell is behind each of these, which are in order.
fn is_behind(cells: &[(u64, Cell)], number: u64, cell: &Cell) -> bool
    requires { IsRising cells.now }
    ensures { IsTrue result ↔ IsRising (cells.now ++ (number, cell.now) ∷ []) }
{
    match cells.split_last() {
        Some(((last_number, last), _)) => {
            compare_numbered(last, *last_number, cell, number) == Ordering::Less
        }
        None => true,
    }
}
