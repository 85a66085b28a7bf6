//! The top call for several disks.

ghost use Rattle.std.specs.Prelude.{◌≡◌, ◌≢◌, ◌≤◌, ◌⊎◌, ℕ, List, [], ◌∷◌, map, Contains, Some, None, IsTrue};
ghost use Rattle.log_model.specs.declared.damage.Damage.{Damage as TheDamage};
ghost use Rattle.disk_images.specs.Calls.{Rose};
ghost use Rattle.script_model.specs.Calls.{IsScript};
ghost use Rattle.script_model.specs.Fields.{Why};
ghost use Rattle.script_model.specs.Script.{script_fault};
ghost use Rattle.script_model.specs.declared.command.Command.TheVariants.{Groups};
ghost use Rattle.command_base.specs.Invocation.{taken_of, GoesOn, IsUnchanged};
ghost use Rattle.command_base.specs.Prints.{Prints};
ghost use Rattle.run_model.specs.Headline.{KeepsThroughout};
ghost use Rattle.run_command.specs.recover_command.Recovered.{IsStoreDamage};
ghost use Rattle.groups_model.specs.Groups.{IsGroup};
ghost use Rattle.groups_run.specs.group_servers.group_lists.Lists.{count_of};
ghost use Rattle.groups_run.specs.Found.{value_of, views};
ghost use Rattle.groups_command.specs.Disks.{AreInARow, OfEach, RoseAt, SomeRose, AreSound, HaveNoOthers, IsFirstDamaged, IsFirstWrong};
ghost use Rattle.groups_command.specs.Ends.{groups_invocation, EndsGroups, GroupsEnd};
ghost use Rattle.groups_command.specs.Status.{refusal_line, LeavesDisks, IsRefusal, IsScriptFault, IsScriptAt, IsDamageOf, IsWrongGroupOf, IsOrEarlier};
ghost use Rattle.groups_command.specs.Status.{IsParsedEnd, IsComplete, status_for};
ghost use Rattle.groups_command.specs.Words.{disks_named};

use crate::carrying::carry_out_groups;
use crate::ran::GroupsRan;
use crate::refusing::refuse;
use crate::status::{GroupsOutcome, GroupsStatus, status_of};
use crate::words::name_disks;
use command_base::read_script;
use disk_images::{Disk, Sink, Source};
use groups_run::group_servers::{GroupList, GroupsWhy};
use groups_run::region_calls::Gate;
use run_command::print_report;
use script_text::{Command, Script};
use std::alloc::Global;
use std::sync::Wait;
use std::thread::Threads;

/// Carries out `run` on one to four disks, each with a log of its own for the regions of its group. The one word is their number. It reads a script
/// without gets, opens a store on each disk, runs the script's handlers, each in a thread of its own, closes the stores, and prints the report of
/// what each call was answered and of each region's edits. A fault of one disk refuses no put of another group. The gate can hold the handlers; it
/// changes nothing of what the command says.
pub fn run_groups<R: Threads + Wait + Sync, D: Disk + Send, S: Source, K: Sink, G: Gate + Sync>(
    rt: &R,
    alloc: Global,
    words: &[&str],
    script: &mut S,
    disks: GroupList<D>,
    out: &mut K,
    gate: &G,
) -> GroupsOutcome<D>
    // No disk stands after one that is left out.
    requires { AreInARow disks }

    // What stands with each status.
    ensures ends { IsTrue S.told → IsTrue D.told → IsTrue K.told
        → GroupsEnd result.status (groups_invocation (count_of disks) (S.left script.old) (views D.view disks) (views D.view result.disks)
        (K.taken out.old) (K.taken out.new)) (RoseAt D.faults disks result.disks) (Rose (K.faults out.old) (K.faults out.new)) }
    // A refusal is one line, whole unless the sink fails.
    ensures refusal { IsTrue K.told → IsRefusal result.status → (text : List ℕ) → refusal_line result.status ≡ Some text
        → Prints (K.taken out.old) (K.taken out.new) text (Rose (K.faults out.old) (K.faults out.new)) }
    ensures leaves_disks { IsTrue D.told → LeavesDisks result.status
        → OfEach (count_of disks) IsUnchanged (views D.view disks) (views D.view result.disks) }
    ensures damage_leaves { IsTrue D.told
        → IsDamageOf result.status (λ disk damage. (views D.view result.disks disk).files ≡ (views D.view disks disk).files) }
    // The images of former moments stay. A stop at any moment leaves on each disk an image of it as found, or the cells that were found.
    ensures moments { IsTrue D.told → OfEach (count_of disks) GoesOn (views D.view disks) (views D.view result.disks) }
    ensures any_moment { IsTrue D.told → OfEach (count_of disks) KeepsThroughout (views D.view disks) (views D.view result.disks) }
    ensures as_many { count_of result.disks ≡ count_of disks }

    // Which status comes only where. Out of memory is free.
    ensures usage_only { result.status ≡ GroupsStatus.Usage → disks_named (map (λ w. w.now) words.now) ≢ Some (count_of disks) }
    ensures script_only { IsTrue S.told → IsScriptFault result.status (λ line why. script_fault Groups (S.left script.old) ≡ Some (line, why)) }
    ensures source_cause { result.status ≡ GroupsStatus.SourceFault → Rose (S.faults script.old) (S.faults script.new) }
    ensures disk_cause { result.status ≡ GroupsStatus.DiskFault → SomeRose D.faults disks result.disks }
    ensures sink_cause { result.status ≡ GroupsStatus.SinkFault → Rose (K.faults out.old) (K.faults out.new) }
    ensures damage_only { IsTrue D.told → IsDamageOf result.status (IsFirstDamaged (count_of disks) (views D.view disks)) }
    ensures wrong_group_only { IsTrue D.told → IsWrongGroupOf result.status (IsFirstWrong (count_of disks) (views D.view disks)) }

    // Which status comes exactly where, unless memory was refused or one that is decided before it came.
    ensures usage { disks_named (map (λ w. w.now) words.now) ≢ Some (count_of disks)
        → (result.status ≡ GroupsStatus.Usage) × (script.new ≡ script.old) }
    ensures script { IsTrue S.told → (line : ℕ) (why : Why) → disks_named (map (λ w. w.now) words.now) ≡ Some (count_of disks)
        → script_fault Groups (S.left script.old) ≡ Some (line, why)
        → IsScriptAt result.status line why ⊎ Contains (GroupsStatus.Memory ∷ GroupsStatus.SourceFault ∷ []) result.status }
    ensures damage { IsTrue S.told → IsTrue D.told → (disk : ℕ) (damage : TheDamage)
        → disks_named (map (λ w. w.now) words.now) ≡ Some (count_of disks) → script_fault Groups (S.left script.old) ≡ None
        → IsFirstDamaged (count_of disks) (views D.view disks) disk damage
        → IsOrEarlier result.status (GroupsStatus.Damaged disk damage) (GroupsStatus.SourceFault ∷ GroupsStatus.DiskFault ∷ []) }
    ensures wrong_group { IsTrue S.told → IsTrue D.told → (disk region : ℕ)
        → disks_named (map (λ w. w.now) words.now) ≡ Some (count_of disks) → script_fault Groups (S.left script.old) ≡ None
        → AreSound (count_of disks) (views D.view disks) → IsFirstWrong (count_of disks) (views D.view disks) disk region
        → IsOrEarlier result.status (GroupsStatus.WrongGroup disk region) (GroupsStatus.SourceFault ∷ GroupsStatus.DiskFault ∷ []) }

    // With the disks' number, a right script, sound stores of which none has another group's region, and no fault, it is done, or memory was refused
    // or a region's numbers were spent.
    ensures complete { IsTrue S.told → IsTrue D.told → disks_named (map (λ w. w.now) words.now) ≡ Some (count_of disks)
        → script_fault Groups (S.left script.old) ≡ None
        → AreSound (count_of disks) (views D.view disks) → HaveNoOthers (count_of disks) (views D.view disks)
        → (Rose (S.faults script.old) (S.faults script.new) → ⊥) → (SomeRose D.faults disks result.disks → ⊥)
        → (Rose (K.faults out.old) (K.faults out.new) → ⊥) → IsComplete result.status }
{
    if !name_disks(words, disks.count()) {
        return GroupsOutcome {
            status: refuse(out, GroupsStatus::Usage),
            disks,
        };
    }
    match read_script(alloc, script, Command::Groups) {
        Ok(script) => run_parsed(rt, alloc, script, disks, out, gate),
        Err(status) => GroupsOutcome {
            status: refuse(out, status_of(status)),
            disks,
        },
    }
}

/// Runs the handlers of a script that was read, and prints the report.
fn run_parsed<R: Threads + Wait + Sync, D: Disk + Send, K: Sink, G: Gate + Sync>(
    rt: &R,
    alloc: Global,
    script: Script,
    disks: GroupList<D>,
    out: &mut K,
    gate: &G,
) -> GroupsOutcome<D>
    requires script { IsScript script }
    requires row { AreInARow disks }
    ensures ends { IsTrue D.told → IsTrue K.told
        → EndsGroups result.status (count_of disks) script (views D.view disks) (views D.view result.disks) (RoseAt D.faults disks result.disks)
        (Rose (K.faults out.old) (K.faults out.new)) (taken_of (K.taken out.old) (K.taken out.new)) }
    ensures refusal { IsTrue K.told → IsRefusal result.status → (text : List ℕ) → refusal_line result.status ≡ Some text
        → Prints (K.taken out.old) (K.taken out.new) text (Rose (K.faults out.old) (K.faults out.new)) }
    ensures damage_leaves { IsTrue D.told
        → IsDamageOf result.status (λ disk damage. (views D.view result.disks disk).files ≡ (views D.view disks disk).files) }
    ensures any_moment { IsTrue D.told → OfEach (count_of disks) KeepsThroughout (views D.view disks) (views D.view result.disks) }
    ensures as_many { count_of result.disks ≡ count_of disks }
    ensures status { IsParsedEnd result.status }
    ensures disk_cause { result.status ≡ GroupsStatus.DiskFault → SomeRose D.faults disks result.disks }
    ensures sink_cause { result.status ≡ GroupsStatus.SinkFault → Rose (K.faults out.old) (K.faults out.new) }
    ensures damage_only { IsTrue D.told → IsDamageOf result.status (IsFirstDamaged (count_of disks) (views D.view disks)) }
    ensures wrong_group_only { IsTrue D.told → IsWrongGroupOf result.status (IsFirstWrong (count_of disks) (views D.view disks)) }
    ensures damage { IsTrue D.told → (disk : ℕ) (damage : TheDamage) → IsFirstDamaged (count_of disks) (views D.view disks) disk damage
        → IsOrEarlier result.status (GroupsStatus.Damaged disk damage) (GroupsStatus.DiskFault ∷ []) }
    ensures wrong_group { IsTrue D.told → (disk region : ℕ) → AreSound (count_of disks) (views D.view disks)
        → IsFirstWrong (count_of disks) (views D.view disks) disk region
        → IsOrEarlier result.status (GroupsStatus.WrongGroup disk region) (GroupsStatus.DiskFault ∷ []) }
    ensures complete { IsTrue D.told → AreSound (count_of disks) (views D.view disks) → HaveNoOthers (count_of disks) (views D.view disks)
        → (SomeRose D.faults disks result.disks → ⊥) → (Rose (K.faults out.old) (K.faults out.new) → ⊥) → IsComplete result.status }
{
    match carry_out_groups(rt, alloc, script, disks, gate) {
        GroupsRan::Closed {
            disks,
            regions,
            replies,
            spent,
            broken,
        } => GroupsOutcome {
            status: status_of(print_report(alloc, regions, replies, spent, broken, out)),
            disks,
        },
        GroupsRan::Left { disks } => GroupsOutcome {
            status: refuse(out, GroupsStatus::Memory),
            disks,
        },
        GroupsRan::NotOpened { why, disk, disks } => GroupsOutcome {
            status: refuse(out, refused_as(why, disk)),
            disks,
        },
    }
}

/// The status of an opening that is refused, told of the disk of this number.
fn refused_as(why: GroupsWhy, disk: u32) -> GroupsStatus
    ensures { result ≡ status_for why disk }
{
    match why {
        GroupsWhy::Memory => GroupsStatus::Memory,
        GroupsWhy::DiskFault => GroupsStatus::DiskFault,
        GroupsWhy::Damaged(damage) => GroupsStatus::Damaged { disk, damage },
        GroupsWhy::WrongGroup { region } => GroupsStatus::WrongGroup { disk, region },
    }
}
