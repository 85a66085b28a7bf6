//! The script of a command.

ghost use Rattle.std.specs.Prelude.{◌≡◌, ◌≢◌, ◌≤◌, ℕ, Option, Some, IsTrue, IfOk, IfErr, IsErrOf};
ghost use Rattle.disk_images.specs.Calls.{Rose};
ghost use Rattle.script_model.specs.Calls.{Says, IsScript};
ghost use Rattle.script_model.specs.Script.{script_fault};
ghost use Rattle.script_model.specs.Fields.{Why};
ghost use Rattle.script_text.specs.Why.{IsLineFault};
ghost use Rattle.command_base.specs.Status.{IsScriptFault, IsInputRefusal};

use crate::input::{InputError, read_to_end};
use crate::status::Status;
use disk_images::Source;
use script_text::{Command, ParseRefusal, Script, parse_script};
use std::alloc::Global;

/// The script that the source has, for a command.
pub fn read_script<S: Source>(
    alloc: Global,
    source: &mut S,
    command: Command,
) -> Result<Script, Status>
    ensures says { IsTrue S.told → IfOk result (λ script. Says command (S.left source.old) script) }
    ensures in_range { IfOk result IsScript }
    ensures refused { IfErr result IsInputRefusal }
    ensures script { IsTrue S.told → IfErr result (λ status. IsScriptFault status (λ line why. script_fault command (S.left source.old) ≡ Some (line, why))) }
    ensures later { S.faults source.old ≤ S.faults source.new }
    ensures cause { IsErrOf result Status.SourceFault → Rose (S.faults source.old) (S.faults source.new) }
{
    let text = match read_to_end(alloc, source) {
        Ok(text) => text,
        Err(InputError::Failed) => return Err(Status::SourceFault),
        Err(InputError::Memory) => return Err(Status::Memory),
    };
    match parse_script(alloc, &text, command) {
        Ok(script) => Ok(script),
        Err(refusal) => Err(status_of(refusal)),
    }
}

/// The status of a script that is refused.
fn status_of(refusal: ParseRefusal) -> Status
    ensures fault { (fault : Option (ℕ × Why)) → IsLineFault refusal fault → IsScriptFault result (λ line why. fault ≡ Some (line, why)) }
    ensures refused { IsInputRefusal result }
    ensures read { result ≢ Status.SourceFault }
{
    match refusal {
        ParseRefusal::Memory => Status::Memory,
        ParseRefusal::Fault { line, why } => Status::Script { line, why },
    }
}
