//! The line of a table's name.

ghost use Rattle.std.specs.Prelude.{◌≡◌, ◌≤◌, IfOk, length, map};
ghost use Rattle.script_model.specs.Fields.{bytes_of, table_name_fault};
ghost use Rattle.script_model.specs.Tables.{table_fault, table_in};
ghost use Rattle.script_lines.specs.Why.{Tells};

use kv_cell::Octets;
use script_lines::{LineError, ScriptWhy, here, token};
use script_model::Command;
use std::alloc::Global;

/// A table's name: a token of 1 to 255 bytes.
#[tactic(auto, using(std::proofs::lemmas::Bool::Decides::nat_tests), unfolding(script_model::specs::Fields::table_name_fault))]
fn table_name(alloc: Global, word: &[u8]) -> Result<Octets, LineError>
    ensures value { IfOk result (λ name. name ≡ bytes_of word.now) }
    ensures within { IfOk result (λ name. length name ≤ 255) }
    ensures exact { Tells result (table_name_fault word.now) }
{
    let Some(name) = token(alloc, word)? else {
        return Err(LineError::Wrong(ScriptWhy::Token));
    };
    if name.len() < 1 || name.len() > 255 {
        return Err(LineError::Wrong(ScriptWhy::TableLength));
    }
    Ok(name)
}

/// The table's name that a line gives, where the line is in its place.
pub fn table_line(alloc: Global, command: Command, words: &[&[u8]]) -> Result<Octets, LineError>
    ensures value { IfOk result (λ name. name ≡ table_in (map (λ w. w.now) words.now)) }
    ensures within { IfOk result (λ name. length name ≤ 255) }
    ensures exact { Tells result (table_fault command (map (λ w. w.now) words.now)) }
{
    match words {
        [_first, word] => {
            let name = table_name(alloc, word)?;
            here(command)?;
            Ok(name)
        }
        _ => Err(LineError::Wrong(ScriptWhy::Word)),
    }
}
