//! Head lines and lines of calls.

ghost use Rattle.std.specs.Prelude.{◌≡◌, ◌≤◌, [], ◌∷◌, IfOk, Some, codes, map};
ghost use Rattle.script_model.specs.Fields.{is};
ghost use Rattle.script_model.specs.Tables.{Opens, call_fault, counted_fault, handler_fault, head_fault, put_fault, region_fault, second_number, spoken_of};
ghost use Rattle.script_model.specs.Text.{number_of};
ghost use Rattle.script_lines.specs.Spoken.{InRange, spoken};
ghost use Rattle.script_lines.specs.Why.{Tells};

use crate::faults::{LineError, ScriptWhy};
use crate::fields::{mode, ranged};
use crate::flushes::{family_line, flush_line};
use crate::not_here::{here, mode_here, one_here};
use crate::reads::{get_line, scan_line};
use kv_cell::Durability;
use script_calls::Call;
use script_model::Command;
use std::alloc::Global;

/// What a line of calls says: a call of a handler, or a put whose cells follow.
#[derive(Drop)]
pub enum Spoken {
    Calls {
        handler: u64,
        call: Call,
    },
    Opens {
        handler: u64,
        region: u32,
        durability: Durability,
        count: u64,
    },
}

/// The number of a head line.
pub fn head_line(words: &[&[u8]], name: &[u8], low: u64, high: u64) -> Result<u64, LineError>
    ensures exact { Tells result (head_fault name.now low high (map (λ w. w.now) words.now)) }
    ensures value { IfOk result (λ n. n ≡ second_number (map (λ w. w.now) words.now)) }
    ensures within { IfOk result (λ n. (low ≤ n) × (n ≤ high)) }
{
    match words {
        [first, word] => {
            if *first != name {
                return Err(LineError::Wrong(ScriptWhy::Word));
            }
            ranged(word, low, high, ScriptWhy::Number)
        }
        _ => Err(LineError::Wrong(ScriptWhy::Word)),
    }
}

/// The number of a head line that counts from 1: `log` takes 1 alone.
pub fn counted_line(
    command: Command,
    words: &[&[u8]],
    name: &[u8],
    high: u64,
) -> Result<u64, LineError>
    ensures exact { Tells result (counted_fault command name.now high (map (λ w. w.now) words.now)) }
    ensures value { IfOk result (λ n. n ≡ second_number (map (λ w. w.now) words.now)) }
    ensures within { IfOk result (λ n. (1 ≤ n) × (n ≤ high)) }
{
    let n = head_line(words, name, 1, high)?;
    one_here(command, n)?;
    Ok(n)
}

/// The number of a handler.
pub(crate) fn handler_of(word: &[u8], handlers: u64) -> Result<u64, LineError>
    ensures value { IfOk result (λ n. n ≡ number_of word.now) }
    ensures within { IfOk result (λ n. (1 ≤ n) × (n ≤ handlers)) }
    ensures exact { Tells result (handler_fault handlers word.now) }
{
    ranged(word, 1, handlers, ScriptWhy::Handler)
}

/// The number of a region.
pub(crate) fn region_of(word: &[u8], regions: u32) -> Result<u32, LineError>
    ensures value { IfOk result (λ n. n ≡ number_of word.now) }
    ensures within { IfOk result (λ n. (1 ≤ n) × (n ≤ regions)) }
    ensures exact { Tells result (region_fault regions word.now) }
{
    let n = ranged(word, 1, regions as u64, ScriptWhy::Region)?;
    Ok(n as u32)
}

/// What a line of calls says, after head lines that gave so many handlers and regions.
pub fn call_line(
    alloc: Global,
    command: Command,
    handlers: u64,
    regions: u32,
    words: &[&[u8]],
) -> Result<Spoken, LineError>
    ensures exact { Tells result (call_fault command handlers regions (map (λ w. w.now) words.now)) }
    ensures value { IfOk result (λ s. spoken_of (map (λ w. w.now) words.now) ≡ Some (spoken s)) }
    ensures within { IfOk result (λ s. InRange handlers regions s) }
{
    match words {
        [name, h] => roll_line(command, handlers, regions, name, h),
        [name, h, r] => flush_line(command, handlers, regions, name, h, r),
        [name, h, r, family] => family_line(alloc, command, handlers, regions, name, h, r, family),
        [name, h, r, x, y] => put_or_read(alloc, command, handlers, regions, name, h, r, x, y),
        _ => Err(LineError::Wrong(ScriptWhy::Word)),
    }
}

/// A roll.
fn roll_line(
    command: Command,
    handlers: u64,
    regions: u32,
    name: &[u8],
    h: &[u8],
) -> Result<Spoken, LineError>
    ensures exact { Tells result (call_fault command handlers regions (name.now ∷ h.now ∷ [])) }
    ensures value { IfOk result (λ s. spoken_of (name.now ∷ h.now ∷ []) ≡ Some (spoken s)) }
    ensures within { IfOk result (λ s. InRange handlers regions s) }
{
    if name != b"roll".as_slice() {
        return Err(LineError::Wrong(ScriptWhy::Word));
    }
    let handler = handler_of(h, handlers)?;
    here(command)?;
    Ok(Spoken::Calls {
        handler,
        call: Call::Roll,
    })
}

/// A put, a scan or a get.
fn put_or_read(
    alloc: Global,
    command: Command,
    handlers: u64,
    regions: u32,
    name: &[u8],
    h: &[u8],
    r: &[u8],
    x: &[u8],
    y: &[u8],
) -> Result<Spoken, LineError>
    ensures exact { Tells result (call_fault command handlers regions (name.now ∷ h.now ∷ r.now ∷ x.now ∷ y.now ∷ [])) }
    ensures value { IfOk result (λ s. spoken_of (name.now ∷ h.now ∷ r.now ∷ x.now ∷ y.now ∷ []) ≡ Some (spoken s)) }
    ensures within { IfOk result (λ s. InRange handlers regions s) }
{
    if name == b"put".as_slice() {
        return put_line(command, handlers, regions, h, r, x, y);
    }
    if name == b"scan".as_slice() {
        return scan_line(alloc, command, handlers, regions, h, r, x, y);
    }
    if name != b"get".as_slice() {
        return Err(LineError::Wrong(ScriptWhy::Word));
    }
    get_line(alloc, command, handlers, regions, h, r, x, y)
}

/// A put whose cells follow.
fn put_line(
    command: Command,
    handlers: u64,
    regions: u32,
    h: &[u8],
    r: &[u8],
    word: &[u8],
    count: &[u8],
) -> Result<Spoken, LineError>
    ensures exact { Tells result (put_fault command handlers regions h.now r.now word.now count.now) }
    ensures value { IfOk result (λ s. spoken s ≡ Opens (number_of h.now) (number_of r.now) (is word.now (codes "sync")) (number_of count.now)) }
    ensures within { IfOk result (λ s. InRange handlers regions s) }
{
    let handler = handler_of(h, handlers)?;
    let region = region_of(r, regions)?;
    let durability = mode(word)?;
    let count = ranged(count, 1, 1024, ScriptWhy::Count)?;
    mode_here(command, durability, word)?;
    Ok(Spoken::Opens {
        handler,
        region,
        durability,
        count,
    })
}
