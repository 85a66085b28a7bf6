//! The command `run`.

ghost use Rattle.std.specs.Prelude.{◌≡◌, ◌≤◌, ◌⊎◌, ℕ, List, [], ◌∷◌, Contains, Some, None, IsTrue};
ghost use Rattle.log_model.specs.declared.damage.Damage.{Damage as TheDamage};
ghost use Rattle.log_model.specs.Files.{IsSound};
ghost use Rattle.log_model.specs.Damage.{IsDamage};
ghost use Rattle.disk_images.specs.Calls.{Rose};
ghost use Rattle.script_model.specs.Calls.{IsScript};
ghost use Rattle.script_model.specs.Fields.{Why};
ghost use Rattle.script_model.specs.Script.{script_fault};
ghost use Rattle.script_model.specs.declared.command.Command.TheVariants.{Run};
ghost use Rattle.command_base.specs.Invocation.{invocation, taken_of, IsUnchanged, AtEachMoment};
ghost use Rattle.command_base.specs.Prints.{Prints};
ghost use Rattle.command_base.specs.Status.{refusal_line, IfDamaged, IsDamageOf, IsOrEarlier, IsScriptAt, IsScriptFault};
ghost use Rattle.run_model.specs.Headline.{MayKeep};
ghost use Rattle.recover_command.specs.Recovered.{IsStoreDamage};
ghost use Rattle.run_command.specs.Ends.{EndsRun, RunEnds, LeavesStore, IsParsedEnd, IsRunComplete, IsRunEnd, IsRunRefusal, IsStatusOf};

use crate::carrying::{Ran, carry_out};
use crate::ending::print_report;
use command_base::{Outcome, Status, read_script, refuse};
use disk_images::{Disk, Sink, Source};
use script_run::region_calls::{Gate, StartWhy};
use script_text::{Command, Script};
use std::alloc::Global;
use std::sync::Wait;
use std::thread::Threads;

/// Carries out `run`: reads a script, runs its handlers on the store, each in a thread of its own, closes the store, and
/// prints the report of what each call was answered and of each region's edits.
pub fn run_script<R: Threads + Wait + Sync, D: Disk + Send, S: Source, K: Sink, G: Gate + Sync>(
    rt: &R,
    alloc: Global,
    source: &mut S,
    disk: D,
    out: &mut K,
    gate: &G,
) -> Outcome<D>
    ensures ends { IsTrue S.told → IsTrue D.told → IsTrue K.told
        → RunEnds result.status (invocation (S.left source.old) (D.view disk) (D.view result.disk) (K.taken out.old) (K.taken out.new))
        (Rose (D.faults disk) (D.faults result.disk)) (Rose (K.faults out.old) (K.faults out.new)) }
    ensures refusal { IsTrue K.told → IsRunRefusal result.status → (text : List ℕ) → refusal_line result.status ≡ Some text
        → Prints (K.taken out.old) (K.taken out.new) text (Rose (K.faults out.old) (K.faults out.new)) }
    ensures leaves_disk { IsTrue D.told → LeavesStore result.status → IsUnchanged (D.view disk) (D.view result.disk) }
    ensures damage_leaves { IsTrue D.told → IfDamaged result.status ((D.view result.disk).files ≡ (D.view disk).files) }
    // At each moment a crash leaves an image of the disk as found, or the cells that were found; former moments stay.
    ensures any_moment { IsTrue D.told → AtEachMoment (MayKeep (D.view disk)) (D.view disk) (D.view result.disk) }
    ensures status { IsRunEnd result.status }
    ensures script { IsTrue S.told → IsScriptFault result.status (λ line why. script_fault Run (S.left source.old) ≡ Some (line, why)) }
    ensures wrong { IsTrue S.told → (line : ℕ) (why : Why) → script_fault Run (S.left source.old) ≡ Some (line, why) → IsScriptAt result.status line why
        ⊎ Contains (Status.Memory ∷ Status.SourceFault ∷ []) result.status }
    ensures damage { IsTrue D.told → IsDamageOf result.status (IsStoreDamage (D.view disk).files) }
    ensures damaged { IsTrue S.told → IsTrue D.told → (damage : TheDamage) → script_fault Run (S.left source.old) ≡ None
        → (¬ IsSound (D.view disk).files) → IsDamage (D.view disk).files damage
        → IsOrEarlier result.status (Status.Damaged damage) (Status.SourceFault ∷ Status.DiskFault ∷ []) }
    ensures source_cause { result.status ≡ Status.SourceFault → Rose (S.faults source.old) (S.faults source.new) }
    ensures disk_cause { result.status ≡ Status.DiskFault → Rose (D.faults disk) (D.faults result.disk) }
    ensures sink_cause { result.status ≡ Status.SinkFault → Rose (K.faults out.old) (K.faults out.new) }
    ensures later { (S.faults source.old ≤ S.faults source.new) × (D.faults disk ≤ D.faults result.disk) × (K.faults out.old ≤ K.faults out.new) }
    // With a right script, a sound store and no fault it is done, or memory or a region's sequence ids were spent.
    ensures complete { IsTrue S.told → IsTrue D.told → script_fault Run (S.left source.old) ≡ None
        → IsSound (D.view disk).files
        → (Rose (S.faults source.old) (S.faults source.new) → ⊥) → (Rose (D.faults disk) (D.faults result.disk) → ⊥)
        → (Rose (K.faults out.old) (K.faults out.new) → ⊥) → IsRunComplete result.status }
{
    match read_script(alloc, source, Command::Run) {
        Ok(script) => run_parsed(rt, alloc, script, disk, out, gate),
        Err(status) => Outcome {
            status: refuse(out, status),
            disk,
        },
    }
}

/// Runs the handlers of a script that was read, and prints the report.
pub fn run_parsed<R: Threads + Wait + Sync, D: Disk + Send, K: Sink, G: Gate + Sync>(
    rt: &R,
    alloc: Global,
    script: Script,
    disk: D,
    out: &mut K,
    gate: &G,
) -> Outcome<D>
    requires { IsScript script }
    ensures ends { IsTrue D.told → IsTrue K.told → EndsRun result.status script (D.view disk) (D.view result.disk)
        (Rose (D.faults disk) (D.faults result.disk)) (Rose (K.faults out.old) (K.faults out.new))
        (taken_of (K.taken out.old) (K.taken out.new)) }
    ensures refusal { IsTrue K.told → IsRunRefusal result.status → (text : List ℕ) → refusal_line result.status ≡ Some text
        → Prints (K.taken out.old) (K.taken out.new) text (Rose (K.faults out.old) (K.faults out.new)) }
    ensures damage_leaves { IsTrue D.told → IfDamaged result.status ((D.view result.disk).files ≡ (D.view disk).files) }
    ensures any_moment { IsTrue D.told → AtEachMoment (MayKeep (D.view disk)) (D.view disk) (D.view result.disk) }
    ensures status { IsParsedEnd result.status }
    ensures damage { IsTrue D.told → IsDamageOf result.status (IsStoreDamage (D.view disk).files) }
    ensures damaged { IsTrue D.told → (damage : TheDamage) → (¬ IsSound (D.view disk).files) → IsDamage (D.view disk).files damage
        → IsOrEarlier result.status (Status.Damaged damage) (Status.DiskFault ∷ []) }
    ensures disk_cause { result.status ≡ Status.DiskFault → Rose (D.faults disk) (D.faults result.disk) }
    ensures sink_cause { result.status ≡ Status.SinkFault → Rose (K.faults out.old) (K.faults out.new) }
    ensures later { (D.faults disk ≤ D.faults result.disk) × (K.faults out.old ≤ K.faults out.new) }
    ensures complete { IsTrue D.told → IsSound (D.view disk).files
        → (Rose (D.faults disk) (D.faults result.disk) → ⊥) → (Rose (K.faults out.old) (K.faults out.new) → ⊥) → IsRunComplete result.status }
{
    match carry_out(rt, alloc, script, disk, gate) {
        Ran::Closed {
            disk,
            regions,
            replies,
            spent,
            broken,
        } => Outcome {
            status: print_report(alloc, regions, replies, spent, broken, out),
            disk,
        },
        Ran::Left { disk } => Outcome {
            status: refuse(out, Status::Memory),
            disk,
        },
        Ran::NotOpened { why, disk } => Outcome {
            status: refuse(out, status_of(why)),
            disk,
        },
    }
}

/// The status of an opening that is refused.
fn status_of(why: StartWhy) -> Status
    ensures { IsStatusOf why result }
{
    match why {
        StartWhy::Memory => Status::Memory,
        StartWhy::DiskFault => Status::DiskFault,
        StartWhy::Damaged(damage) => Status::Damaged(damage),
    }
}
