//! The walk over the lines of a script.

ghost use Rattle.std.specs.Prelude.{◌≡◌, ◌≤◌, None, OnOk, length};
ghost use Rattle.script_model.specs.Script.{after_line, end_fault, first_wrong, line_fault, said_by};
ghost use Rattle.script_model.specs.Text.{lines_of};
ghost use Rattle.script_lines.specs.Why.{Tells};
ghost use Rattle.script_text.specs.Why.{TellsLine};

use crate::faults::ParseRefusal;
use crate::pieces::{next_line, split_words};
use crate::state::State;
use script_lines::{LineError, ScriptWhy};
use script_model::Command;
use std::alloc::Global;

/// Says a line, unless it is skipped. The list of words keeps its room from line to line.
fn one_line<'a>(
    state: &mut State,
    alloc: Global,
    command: Command,
    line: &'a [u8],
    words: &mut Vec<&'a [u8]>,
) -> Result<(), LineError>
    ensures exact { Tells result (line_fault command state.old line.now) }
    ensures said { OnOk result (state.new ≡ after_line state.old line.now) }
{
    if line.len() > 524_288 {
        return Err(LineError::Wrong(ScriptWhy::TooLong));
    }
    if line.is_empty() || line[0] == b'#' {
        return Ok(());
    }
    split_words(line, words)?;
    if words.is_empty() {
        return Ok(());
    }
    state.say(alloc, command, words.as_slice())
}

/// Says each line of a text, up to the first wrong one.
pub fn all_lines<'a>(
    state: &mut State,
    alloc: Global,
    command: Command,
    text: &'a [u8],
) -> Result<(), ParseRefusal>
    requires { length text.now ≤ 16777216 }
    ensures exact { TellsLine result (first_wrong command 1 state.old (lines_of text.now)) }
    ensures said { OnOk result (state.new ≡ said_by state.old (lines_of text.now)) }
    ensures ended { OnOk result (end_fault state.new ≡ None) }
{
    let mut words: Vec<&'a [u8]> = Vec::new(alloc);
    let mut n: u64 = 1;
    let mut rest = text;
    while !rest.is_empty() {
        let (line, behind) = next_line(rest);
        match one_line(state, alloc, command, line, &mut words) {
            Ok(()) => {}
            Err(LineError::Memory) => return Err(ParseRefusal::Memory),
            Err(LineError::Wrong(why)) => return Err(ParseRefusal::Fault { line: n, why }),
        }
        n += 1;
        rest = behind;
    }
    match state.end() {
        Ok(()) => Ok(()),
        Err(LineError::Memory) => Err(ParseRefusal::Memory),
        Err(LineError::Wrong(why)) => Err(ParseRefusal::Fault { line: n, why }),
    }
}
