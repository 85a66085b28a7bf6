//! A script from its text.

ghost use Rattle.std.specs.Prelude.{◌≡◌, IfErr, IfOk};
ghost use Rattle.script_model.specs.Calls.{IsScript, Says};
ghost use Rattle.script_model.specs.Script.{script_fault};
ghost use Rattle.script_text.specs.Why.{IsLineFault};

use crate::faults::{ParseRefusal, ScriptWhy};
use crate::state::State;
use crate::walk::all_lines;
use script_calls::Script;
use script_model::Command;
use std::alloc::Global;

/// The script that the bytes are for the command, or their first wrong line with its cause: a right text is never
/// refused for another reason than being out of memory. The time is linear in the bytes.
#[tactic(auto, using(std::proofs::lemmas::Bool::Decides::nat_tests), unfolding(script_model::specs::Script::script_fault))]
pub fn parse_script(alloc: Global, bytes: &[u8], command: Command) -> Result<Script, ParseRefusal>
    ensures ok { IfOk result (λ script. Says command bytes.now script) }
    ensures within { IfOk result (λ script. IsScript script) }
    ensures refused { IfErr result (λ e. IsLineFault e (script_fault command bytes.now)) }
{
    if bytes.len() > 16_777_216 {
        return Err(ParseRefusal::Fault {
            line: 0,
            why: ScriptWhy::TooLong,
        });
    }
    let mut state = State::new(alloc);
    all_lines(&mut state, alloc, command, bytes)?;
    Ok(state.into_script(alloc)?)
}
