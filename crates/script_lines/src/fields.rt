//! The fields of a line, each with what is wrong with it.

ghost use Rattle.std.specs.Prelude.{◌≡◌, ◌<◌, ◌≤◌, IfOk, IsTrue, Some, None, MatchOption, codes, length, true};
ghost use Rattle.cell_model.specs.Cell.{is_kind};
ghost use Rattle.kv_cell.specs.Kind.{code_of as kind_code};
ghost use Rattle.script_model.specs.Fields.{bytes_of, code_of, is, kind_fault, mode_fault, number_fault, sized_fault, token_fault, ts_fault};
ghost use Rattle.script_model.specs.Fields.{ts_of};
ghost use Rattle.script_model.specs.Text.{number_of};
ghost use Rattle.script_calls.specs.Calls.{is_sync};
ghost use Rattle.script_model.specs.Why.{limit_of, why_of};
ghost use Rattle.script_lines.specs.Stamps.{stamp_fault, stamp_of};
ghost use Rattle.script_lines.specs.Why.{Tells};

use crate::faults::{CellField, LineError, ScriptWhy};
use crate::numbers::number;
use crate::tokens::token;
use kv_cell::{Durability, Kind, Octets};
use std::alloc::Global;

/// A number from `low` to `high`, refused for `out` where it is one and out of this range.
#[tactic(auto, using(std::proofs::lemmas::Bool::Decides::nat_tests), unfolding(script_model::specs::Fields::number_fault))]
pub fn ranged(word: &[u8], low: u64, high: u64, out: ScriptWhy) -> Result<u64, LineError>
    ensures value { IfOk result (λ n. n ≡ number_of word.now) }
    ensures within { IfOk result (λ n. (low ≤ n) × (n ≤ high)) }
    ensures exact { Tells result (number_fault low high (why_of out) word.now) }
{
    let Some(n) = number(word) else {
        return Err(LineError::Wrong(ScriptWhy::Number));
    };
    if n < low || n > high {
        return Err(LineError::Wrong(out));
    }
    Ok(n)
}

/// The bytes of a token.
#[tactic(auto, unfolding(script_model::specs::Fields::token_fault))]
pub fn any_token(alloc: Global, word: &[u8]) -> Result<Octets, LineError>
    ensures value { IfOk result (λ v. v ≡ bytes_of word.now) }
    ensures exact { Tells result (token_fault word.now) }
{
    let Some(bytes) = token(alloc, word)? else {
        return Err(LineError::Wrong(ScriptWhy::Token));
    };
    Ok(bytes)
}

/// The bytes of a token that has from `low` to `high` of them.
#[tactic(auto, using(std::proofs::lemmas::Bool::Decides::nat_tests), unfolding(script_model::specs::Fields::sized_fault))]
pub fn sized(
    alloc: Global,
    word: &[u8],
    low: usize,
    high: usize,
    field: CellField,
) -> Result<Octets, LineError>
    ensures value { IfOk result (λ v. v ≡ bytes_of word.now) }
    ensures within { IfOk result (λ v. (low ≤ length v) × (length v ≤ high)) }
    ensures exact { Tells result (sized_fault (limit_of field) low high word.now) }
{
    let Some(bytes) = token(alloc, word)? else {
        return Err(LineError::Wrong(ScriptWhy::Token));
    };
    if bytes.len() < low || bytes.len() > high {
        return Err(LineError::Wrong(ScriptWhy::Cell(field)));
    }
    Ok(bytes)
}

/// The timestamp that a word gives in a script of this time.
#[tactic(auto, using(std::proofs::lemmas::Bool::Decides::nat_tests), unfolding(script_model::specs::Fields::ts_fault))]
pub fn stamp(time: u64, word: &[u8]) -> Result<u64, LineError>
    requires { time < 9223372036854775808 }
    ensures value { IfOk result (λ ts. ts ≡ ts_of time word.now) }
    ensures within { IfOk result (λ ts. ts < 9223372036854775808) }
    ensures exact { Tells result (ts_fault time word.now) }
{
    if word == b"now".as_slice() {
        return Ok(time);
    }
    match number(word) {
        Some(n) => stamp_of(time, n),
        None => Err(LineError::Wrong(ScriptWhy::Number)),
    }
}

/// The timestamp that a number gives.
#[tactic(auto, using(std::proofs::lemmas::Bool::Decides::nat_tests))]
fn stamp_of(time: u64, n: u64) -> Result<u64, LineError>
    requires { time < 9223372036854775808 }
    ensures value { IfOk result (λ ts. ts ≡ stamp_of time n) }
    ensures within { IfOk result (λ ts. ts < 9223372036854775808) }
    ensures exact { Tells result (stamp_fault time n) }
{
    if n == 0x7FFF_FFFF_FFFF_FFFF {
        return Ok(time);
    }
    if n >= 0x8000_0000_0000_0000 {
        return Err(LineError::Wrong(ScriptWhy::Cell(CellField::Timestamp)));
    }
    Ok(n)
}

/// The type of that name.
pub fn kind_named(word: &[u8]) -> Option<Kind>
    ensures { MatchOption result (code_of word.now ≡ 0) (λ kind. (code_of word.now ≡ kind_code kind) × (is_kind (code_of word.now) ≡ true)) }
{
    if word == b"put".as_slice() {
        Some(Kind::Put)
    } else if word == b"delete".as_slice() {
        Some(Kind::Delete)
    } else if word == b"delete-family-version".as_slice() {
        Some(Kind::DeleteFamilyVersion)
    } else if word == b"delete-column".as_slice() {
        Some(Kind::DeleteColumn)
    } else if word == b"delete-family".as_slice() {
        Some(Kind::DeleteFamily)
    } else {
        None
    }
}

/// The type of a cell.
#[tactic(auto, using(std::proofs::lemmas::Bool::Decides::nat_tests), unfolding(script_model::specs::Fields::kind_fault))]
pub fn kind(word: &[u8]) -> Result<Kind, LineError>
    ensures value { IfOk result (λ kind. kind_code kind ≡ code_of word.now) }
    ensures within { IfOk result (λ kind. IsTrue (is_kind (kind_code kind))) }
    ensures exact { Tells result (kind_fault word.now) }
{
    let Some(kind) = kind_named(word) else {
        return Err(LineError::Wrong(ScriptWhy::Cell(CellField::Kind)));
    };
    Ok(kind)
}

/// Whether a put waits.
#[tactic(auto, unfolding(script_model::specs::Fields::mode_fault))]
pub fn mode(word: &[u8]) -> Result<Durability, LineError>
    ensures value { IfOk result (λ durability. is_sync durability ≡ is word.now (codes "sync")) }
    ensures exact { Tells result (mode_fault word.now) }
{
    if word == b"sync".as_slice() {
        return Ok(Durability::Sync);
    }
    if word == b"async".as_slice() {
        return Ok(Durability::Async);
    }
    Err(LineError::Wrong(ScriptWhy::Word))
}
