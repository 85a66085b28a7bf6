//! The command `log`: writes the puts of a script into log 1, and replies.

ghost use Rattle.std.specs.Prelude.{◌≡◌, ◌≢◌, ◌≤◌, ◌<◌, ◌+◌, ◌*◌, ◌⊎◌, ℕ, List, [], ◌∷◌, Contains, Option, Some, None, IsTrue, IfOk, IfErr, OnOk, IsErrOf, vec_len, vec_capacity};
ghost use Rattle.std.specs.FinMap.{keys};
ghost use Rattle.log_model.specs.declared.name.Name.{Name};
ghost use Rattle.disk_images.specs.Calls.{Rose, Looks, HasCause};
ghost use Rattle.script_model.specs.Calls.{Script as TheScript, Says, IsScript};
ghost use Rattle.script_model.specs.Fields.{Why};
ghost use Rattle.script_model.specs.Script.{script_fault};
ghost use Rattle.script_model.specs.declared.command.Command.TheVariants.{Log};
ghost use Rattle.command_base.specs.Invocation.{invocation, IsUnchanged, GoesOn, AtEachMoment};
ghost use Rattle.command_base.specs.Prints.{Prints};
ghost use Rattle.log_command.specs.Logged.{EndsLog, LogMayLeave};
ghost use Rattle.command_base.specs.Status.{IsNotEmpty, IsOrEarlier, IsRefusal, IsScriptAt, IsScriptFault, refusal_line};
ghost use Rattle.log_command.specs.Parts.{IsFramesOf, IsLogEnd, IsScriptEnd, IsStoreRefusal, IsWritingEnd};

use crate::replies::{make_room, put_all_ok, put_stopped};
use crate::writing::{Prepared, Written, prepare, write_log};
use command_base::{Status, emit, read_script, refuse};
use disk_images::{Disk, NamesError, Sink, Source};
use kv_cell::NoMemory;
use script_text::{Command, Script};
use std::alloc::Global;

/// All memory of the command, taken before the disk is changed.
#[derive(Drop)]
pub struct Ready {
    pub prepared: Prepared,
    pub replies: Vec<u8>,
}

/// Carries out `log`.
pub fn log<D: Disk, S: Source, K: Sink>(
    alloc: Global,
    source: &mut S,
    disk: &mut D,
    out: &mut K,
) -> Status
    ensures ends { IsTrue S.told → IsTrue D.told → IsTrue K.told
        → EndsLog result (invocation (S.left source.old) (D.view disk.old) (D.view disk.new) (K.taken out.old) (K.taken out.new))
        (Rose (D.faults disk.old) (D.faults disk.new)) (Rose (K.faults out.old) (K.faults out.new)) }
    ensures refusal { IsTrue K.told → IsRefusal result → (text : List ℕ) → refusal_line result ≡ Some text
        → Prints (K.taken out.old) (K.taken out.new) text (Rose (K.faults out.old) (K.faults out.new)) }
    ensures leaves_disk { IsTrue D.told → IsRefusal result → IsUnchanged (D.view disk.old) (D.view disk.new) }
    ensures moments { IsTrue D.told → GoesOn (D.view disk.old) (D.view disk.new) }
    ensures any_moment { IsTrue S.told → IsTrue D.told
        → AtEachMoment (LogMayLeave (S.left source.old) (D.view disk.old)) (D.view disk.old) (D.view disk.new) }
    ensures status { IsLogEnd result }
    ensures script { IsTrue S.told → IsScriptFault result (λ line why. script_fault Log (S.left source.old) ≡ Some (line, why)) }
    ensures not_empty { IsTrue D.told → IsNotEmpty result (D.view disk.old).files }
    ensures wrong { IsTrue S.told → (line : ℕ) (why : Why) → script_fault Log (S.left source.old) ≡ Some (line, why) → IsScriptAt result line why
        ⊎ Contains (Status.Memory ∷ Status.SourceFault ∷ []) result }
    ensures full { IsTrue S.told → IsTrue D.told → script_fault Log (S.left source.old) ≡ None → (name : Name) (rest : List Name)
        → keys (D.view disk.old).files ≡ name ∷ rest
        → IsOrEarlier result (Status.NotEmpty name) (Status.SourceFault ∷ Status.DiskFault ∷ []) }
    ensures source_cause { result ≡ Status.SourceFault → Rose (S.faults source.old) (S.faults source.new) }
    ensures disk_cause { result ≡ Status.DiskFault → Rose (D.faults disk.old) (D.faults disk.new) }
    ensures sink_cause { result ≡ Status.SinkFault → Rose (K.faults out.old) (K.faults out.new) }
    ensures later { (S.faults source.old ≤ S.faults source.new) × (D.faults disk.old ≤ D.faults disk.new) × (K.faults out.old ≤ K.faults out.new) }
{
    match read_script(alloc, source, Command::Log) {
        Ok(script) => log_script(alloc, &script, disk, out),
        Err(status) => refuse(out, status),
    }
}

/// Carries out the script.
fn log_script<D: Disk, K: Sink>(alloc: Global, script: &Script, disk: &mut D, out: &mut K) -> Status
    requires { IsScript script.now }
    ensures ends { IsTrue D.told → IsTrue K.told → (text : List ℕ) → Says Log text script.now
        → EndsLog result (invocation text (D.view disk.old) (D.view disk.new) (K.taken out.old) (K.taken out.new))
        (Rose (D.faults disk.old) (D.faults disk.new)) (Rose (K.faults out.old) (K.faults out.new)) }
    ensures refusal { IsTrue K.told → IsRefusal result → (text : List ℕ) → refusal_line result ≡ Some text
        → Prints (K.taken out.old) (K.taken out.new) text (Rose (K.faults out.old) (K.faults out.new)) }
    ensures leaves_disk { IsTrue D.told → IsRefusal result → IsUnchanged (D.view disk.old) (D.view disk.new) }
    ensures moments { IsTrue D.told → GoesOn (D.view disk.old) (D.view disk.new) }
    ensures any_moment { IsTrue D.told → (text : List ℕ) → Says Log text script.now
        → AtEachMoment (LogMayLeave text (D.view disk.old)) (D.view disk.old) (D.view disk.new) }
    ensures status { IsScriptEnd result }
    ensures not_empty { IsTrue D.told → IsNotEmpty result (D.view disk.old).files }
    ensures full { IsTrue D.told → (name : Name) (rest : List Name) → keys (D.view disk.old).files ≡ name ∷ rest
        → IsOrEarlier result (Status.NotEmpty name) (Status.DiskFault ∷ []) }
    ensures disk_cause { result ≡ Status.DiskFault → Rose (D.faults disk.old) (D.faults disk.new) }
    ensures sink_cause { result ≡ Status.SinkFault → Rose (K.faults out.old) (K.faults out.new) }
    ensures later { (D.faults disk.old ≤ D.faults disk.new) × (K.faults out.old ≤ K.faults out.new) }
{
    if let Err(status) = check_empty(alloc, disk) {
        return refuse(out, status);
    }
    match make_ready(alloc, script) {
        Ok(ready) => log_ready(ready, disk, out),
        Err(NoMemory) => refuse(out, Status::Memory),
    }
}

/// Whether the disk has no file: the refusal names the first one.
fn check_empty<D: Disk>(alloc: Global, disk: &mut D) -> Result<(), Status>
    ensures empty { IsTrue D.told → OnOk result (keys (D.view disk.old).files ≡ []) }
    ensures not_empty { IsTrue D.told → IfErr result (λ status. IsNotEmpty status (D.view disk.old).files) }
    ensures refused { IfErr result IsStoreRefusal }
    ensures looks { IsTrue D.told → Looks (D.view disk.old) (D.view disk.new) }
    ensures cause { HasCause (D.faults disk.old) (D.faults disk.new) (IsErrOf result Status.DiskFault) }
{
    match disk.names(alloc) {
        Ok(names) => match names.as_slice() {
            [] => Ok(()),
            [name, ..] => Err(Status::NotEmpty { name: *name }),
        },
        Err(NamesError::Failed) => Err(Status::DiskFault),
        Err(NamesError::Memory) => Err(Status::Memory),
    }
}

/// What the writing and the replies need.
fn make_ready(alloc: Global, script: &Script) -> Result<Ready, NoMemory>
    requires { IsScript script.now }
    ensures frames { IfOk result (λ ready. IsFramesOf ready.prepared.frames.items script.now) }
    ensures few { IfOk result (λ ready. vec_len ready.prepared.frames ≤ 268435456) }
    ensures none { IfOk result (λ ready. ready.replies.items ≡ []) }
    ensures room { IfOk result (λ ready. 160 * (vec_len ready.prepared.frames + 1) ≤ vec_capacity ready.replies) }
{
    let prepared = prepare(alloc, script)?;
    let replies = make_room(alloc, prepared.frames.len())?;
    Ok(Ready { prepared, replies })
}

/// Writes the log and replies. The disk has no file.
fn log_ready<D: Disk, K: Sink>(ready: Ready, disk: &mut D, out: &mut K) -> Status
    requires frames { ∥ ((script : TheScript) × IsFramesOf ready.prepared.frames.items script) ∥₁ }
    requires few { vec_len ready.prepared.frames ≤ 268435456 }
    requires none { ready.replies.items ≡ [] }
    requires room { 160 * (vec_len ready.prepared.frames + 1) ≤ vec_capacity ready.replies }
    requires empty { IsTrue D.told → keys (D.view disk.old).files ≡ [] }

    ensures ends { IsTrue D.told → IsTrue K.told → (text : List ℕ) (script : TheScript) → Says Log text script → IsFramesOf ready.prepared.frames.items script
        → EndsLog result (invocation text (D.view disk.old) (D.view disk.new) (K.taken out.old) (K.taken out.new))
        (Rose (D.faults disk.old) (D.faults disk.new)) (Rose (K.faults out.old) (K.faults out.new)) }
    ensures moments { IsTrue D.told → GoesOn (D.view disk.old) (D.view disk.new) }
    ensures any_moment { IsTrue D.told → (text : List ℕ) (script : TheScript) → Says Log text script → IsFramesOf ready.prepared.frames.items script
        → AtEachMoment (LogMayLeave text (D.view disk.old)) (D.view disk.old) (D.view disk.new) }
    ensures status { IsWritingEnd result }
    ensures disk_cause { result ≡ Status.DiskFault → Rose (D.faults disk.old) (D.faults disk.new) }
    ensures sink_cause { result ≡ Status.SinkFault → Rose (K.faults out.old) (K.faults out.new) }
    ensures later { (D.faults disk.old ≤ D.faults disk.new) × (K.faults out.old ≤ K.faults out.new) }
{
    let Ready {
        prepared,
        mut replies,
    } = ready;
    let count = prepared.frames.len();
    match write_log(disk, prepared) {
        Written::Nothing => refuse(out, Status::DiskFault),
        Written::Stopped { done } => {
            put_stopped(&mut replies, count, done);
            emit(out, &replies, Status::DiskFault)
        }
        Written::Whole => {
            put_all_ok(&mut replies, count);
            emit(out, &replies, Status::Done)
        }
    }
}
