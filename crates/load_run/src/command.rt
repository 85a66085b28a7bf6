//! The top call.

ghost use Rattle.std.specs.Prelude.{◌≡◌, ℕ, ◌⊎◌, List, [], ◌∷◌, map, Contains, Option, Some, None, IsTrue};
ghost use Rattle.std.specs.FinMap.{keys};
ghost use Rattle.log_model.specs.declared.name.Name.{Name};
ghost use Rattle.log_model.specs.declared.damage.Damage.{Damage as TheDamage};
ghost use Rattle.log_model.specs.Files.{Same};
ghost use Rattle.disk_images.specs.Calls.{Rose};
ghost use Rattle.script_model.specs.Fields.{Why};
ghost use Rattle.load_run.specs.Words.{Word as TheWord, word_of};
ghost use Rattle.command_base.specs.Invocation.{invocation, IsUnchanged, GoesOn, AtEachMoment};
ghost use Rattle.command_base.specs.Prints.{Prints};
ghost use Rattle.command_base.specs.Status.{refusal_line, IfDamaged, IfNotEmpty, IsScriptFault, IsScriptAt, IsDamageOf, IsNoPositionOf, IsNotEmpty, IsOrEarlier};
ghost use Rattle.load_run.specs.Profile.{IsWrongAt, HasRightScript, IfSpent};
ghost use Rattle.load_run.specs.Commands.{profile, profile_of};

use crate::words::{Word, read_words};
use command_base::{Outcome, Status, refuse};
use compact_command::compact_region;
use compact_command::recover_command::recover;
use disk_images::{Disk, Sink, Source};
use dump_command::dump;
use load_command::load;
use load_command::region_calls::Gate;
use load_command::run_command::run_script;
use log_command::log;
use ship_command::ship;
use show_command::show;
use std::alloc::Global;
use std::sync::Wait;
use std::thread::Threads;

/// Carries out the command that the words name: `log`, `show`, `dump NUMBER`, `ship FILE ENTRIES`, `recover`, `compact KIND REGION`,
/// `run` or `load` with its options. The source has a script, the sink takes the output. The gate can hold the handlers that `run` and `load` have; it
/// changes nothing of what the command says.
pub fn run<R: Threads + Wait + Sync, D: Disk + Send, S: Source, K: Sink, G: Gate + Sync>(
    rt: &R,
    alloc: Global,
    words: &[&str],
    script: &mut S,
    disk: D,
    out: &mut K,
    gate: &G,
) -> Outcome<D>
    // What stands with each status of a command.
    ensures ends { IsTrue S.told → IsTrue D.told → IsTrue K.told → (word : TheWord) → word_of (map (λ w. w.now) words.now) ≡ Some word
        → (profile word).ends result.status (invocation (S.left script.old) (D.view disk) (D.view result.disk) (K.taken out.old) (K.taken out.new))
        (Rose (D.faults disk) (D.faults result.disk)) (Rose (K.faults out.old) (K.faults out.new)) }
    // A refusal is one line, whole unless the sink fails. That of `ship` stands after what was shipped.
    ensures refusal { IsTrue K.told → (profile_of (word_of (map (λ w. w.now) words.now))).line result.status
        → (text : List ℕ) → refusal_line result.status ≡ Some text
        → Prints (K.taken out.old) (K.taken out.new) text (Rose (K.faults out.old) (K.faults out.new)) }
    ensures leaves_disk { IsTrue D.told → (profile_of (word_of (map (λ w. w.now) words.now))).leaves_disk result.status
        → IsUnchanged (D.view disk) (D.view result.disk) }
    ensures damage_leaves { IsTrue D.told → (profile_of (word_of (map (λ w. w.now) words.now))).damage_leaves
        → IfDamaged result.status (Same (D.view disk).files (D.view result.disk).files) }
    // The images of former moments stay. A stop at any moment leaves only what the command says.
    ensures moments { IsTrue D.told → GoesOn (D.view disk) (D.view result.disk) }
    ensures any_moment { (profile_of (word_of (map (λ w. w.now) words.now))).wants_source (IsTrue S.told) → IsTrue D.told
        → AtEachMoment ((profile_of (word_of (map (λ w. w.now) words.now))).may_leave (S.left script.old) (D.view disk)) (D.view disk) (D.view result.disk) }
    // Only a command that takes a script reads the source.
    ensures leaves_source { (profile_of (word_of (map (λ w. w.now) words.now))).script ≡ None → script.new ≡ script.old }

    // Which statuses there are, and which comes only where. Out of memory is free.
    ensures range { (profile_of (word_of (map (λ w. w.now) words.now))).may_end result.status }
    ensures usage_only { result.status ≡ Status.Usage → word_of (map (λ w. w.now) words.now) ≡ None }
    ensures script_only { IsTrue S.told → (word : TheWord) → word_of (map (λ w. w.now) words.now) ≡ Some word
        → IsScriptFault result.status (IsWrongAt (profile word) (S.left script.old)) }
    ensures source_cause { result.status ≡ Status.SourceFault → Rose (S.faults script.old) (S.faults script.new) }
    ensures disk_cause { result.status ≡ Status.DiskFault → Rose (D.faults disk) (D.faults result.disk) }
    ensures sink_cause { result.status ≡ Status.SinkFault → Rose (K.faults out.old) (K.faults out.new) }
    ensures damage_only { IsTrue D.told → (word : TheWord) → word_of (map (λ w. w.now) words.now) ≡ Some word
        → IsDamageOf result.status ((profile word).damage (D.view disk).files (D.view result.disk).files) }
    ensures no_position_only { IsTrue D.told → (word : TheWord) → word_of (map (λ w. w.now) words.now) ≡ Some word
        → IsNoPositionOf result.status ((profile word).no_position (D.view disk).files) }
    ensures not_empty_only { IsTrue D.told → IsNotEmpty result.status (D.view disk).files }
    ensures not_empty_need { IfNotEmpty result.status (profile_of (word_of (map (λ w. w.now) words.now))).wants_empty }
    ensures spent_only { IfSpent result.status (profile_of (word_of (map (λ w. w.now) words.now))).may_spend }

    // Which status comes exactly where, unless memory was refused or one that is decided before it came.
    ensures usage { word_of (map (λ w. w.now) words.now) ≡ None → IsOrEarlier result.status Status.Usage [] }
    ensures script { IsTrue S.told → (word : TheWord) (line : ℕ) (why : Why) → word_of (map (λ w. w.now) words.now) ≡ Some word
        → IsWrongAt (profile word) (S.left script.old) line why
        → IsScriptAt result.status line why ⊎ Contains (Status.Memory ∷ Status.SourceFault ∷ []) result.status }
    ensures damage { IsTrue D.told → (word : TheWord) (damage : TheDamage) → word_of (map (λ w. w.now) words.now) ≡ Some word
        → HasRightScript (profile word) (IsTrue S.told) (S.left script.old) → (profile word).must_tell (D.view disk).files damage
        → IsOrEarlier result.status (Status.Damaged damage) (profile word).earlier }
    ensures no_position { IsTrue D.told → (word : TheWord) (file has : ℕ) → word_of (map (λ w. w.now) words.now) ≡ Some word
        → (profile word).no_position (D.view disk).files file has
        → IsOrEarlier result.status (Status.NoPosition file has) (Status.DiskFault ∷ Status.SinkFault ∷ []) }
    ensures not_empty { IsTrue D.told → (word : TheWord) (name : Name) (rest : List Name)
        → word_of (map (λ w. w.now) words.now) ≡ Some word → (profile word).wants_empty
        → HasRightScript (profile word) (IsTrue S.told) (S.left script.old) → keys (D.view disk).files ≡ name ∷ rest
        → IsOrEarlier result.status (Status.NotEmpty name) (Status.SourceFault ∷ Status.DiskFault ∷ []) }

    // With a command, a script and a store as it wants them, and no fault, it is done or memory was refused, or `run` has
    // spent a region's numbers, or `ship` found damage or no such position.
    ensures complete { IsTrue S.told → IsTrue D.told → (word : TheWord) → word_of (map (λ w. w.now) words.now) ≡ Some word
        → (profile word).ready (S.left script.old) (D.view disk).files
        → (Rose (S.faults script.old) (S.faults script.new) → ⊥) → (Rose (D.faults disk) (D.faults result.disk) → ⊥)
        → (Rose (K.faults out.old) (K.faults out.new) → ⊥) → (profile word).complete result.status }
{
    let mut disk = disk;
    let Ok(word) = read_words(alloc, words) else {
        return Outcome {
            status: refuse(out, Status::Memory),
            disk,
        };
    };
    match word {
        Some(Word::Log) => Outcome {
            status: log(alloc, script, &mut disk, out),
            disk,
        },
        Some(Word::Show) => Outcome {
            status: show(alloc, &mut disk, out),
            disk,
        },
        Some(Word::Dump { number }) => Outcome {
            status: dump(alloc, number, &mut disk, out),
            disk,
        },
        Some(Word::Ship { from }) => Outcome {
            status: ship(rt, alloc, from, &mut disk, out),
            disk,
        },
        Some(Word::Recover) => Outcome {
            status: recover(alloc, &mut disk, out),
            disk,
        },
        Some(Word::Compact { kind, region }) => Outcome {
            status: compact_region(alloc, &mut disk, region, kind, out),
            disk,
        },
        Some(Word::Run) => run_script(rt, alloc, script, disk, out, gate),
        Some(Word::Load { options }) => load(rt, alloc, options, disk, out, gate),
        None => Outcome {
            status: refuse(out, Status::Usage),
            disk,
        },
    }
}
