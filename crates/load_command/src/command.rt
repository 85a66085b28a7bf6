//! The command `load`.

ghost use Rattle.std.specs.Prelude.{◌≡◌, ◌≤◌, ◌⊎◌, ℕ, List, [], ◌∷◌, Some, IsTrue};
ghost use Rattle.std.specs.FinMap.{keys};
ghost use Rattle.log_model.specs.declared.name.Name.{Name};
ghost use Rattle.disk_images.specs.Calls.{Rose};
ghost use Rattle.made_script.specs.Made.{AreOptions};
ghost use Rattle.run_command.specs.Decided.{decided};
ghost use Rattle.run_command.specs.Ends.{joined, status_for};
ghost use Rattle.run_model.specs.Headline.{MayKeep};
ghost use Rattle.command_base.specs.Invocation.{invocation, IsUnchanged, AtEachMoment};
ghost use Rattle.command_base.specs.Prints.{Prints};
ghost use Rattle.command_base.specs.Status.{refusal_line, IsComplete, IsDamageOf, IsNotEmpty, IsOrEarlier, IsRefusal};
ghost use Rattle.run_command.specs.recover_command.Recovered.{IsStoreDamage};
ghost use Rattle.load_command.specs.Ends.{EndsLoad};
ghost use Rattle.load_command.specs.Statuses.{IsClosedEnd, IsDecided, IsLoadEnd, LeavesStore};

use crate::checking::check_empty;
use crate::ending::end_load;
use command_base::{Outcome, Status, refuse};
use disk_images::{Disk, Sink};
use kv_cell::NoMemory;
use made_script::{LoadOptions, count_calls, make_script};
use run_command::region_calls::{Gate, StartWhy};
use run_command::{Ran, carry_out, decide, join_replies};
use run_model::Spent;
use script_calls::ReplyLines;
use std::alloc::Global;
use std::sync::Wait;
use std::thread::Threads;

/// Carries out `load` on an empty store: runs the script that the options make, each handler in a thread of its own, closes the
/// store, opens it again, and prints how many calls there were and how many cells are there. Where a fault of the disk ended the
/// log the store isn't opened again, and no cells are told, nor where one ended that opening; where a call wanted memory, that
/// alone is told.
pub fn load<R: Threads + Wait + Sync, D: Disk + Send, K: Sink, G: Gate + Sync>(
    rt: &R,
    alloc: Global,
    options: LoadOptions,
    disk: D,
    out: &mut K,
    gate: &G,
) -> Outcome<D>
    requires { AreOptions options }
    ensures ends { IsTrue D.told → IsTrue K.told → (script : List ℕ) → EndsLoad result.status options
        (invocation script (D.view disk) (D.view result.disk) (K.taken out.old) (K.taken out.new))
        (Rose (D.faults disk) (D.faults result.disk)) (Rose (K.faults out.old) (K.faults out.new)) }
    ensures refusal { IsTrue K.told → IsRefusal result.status → (text : List ℕ) → refusal_line result.status ≡ Some text
        → Prints (K.taken out.old) (K.taken out.new) text (Rose (K.faults out.old) (K.faults out.new)) }
    ensures leaves_disk { IsTrue D.told → LeavesStore result.status → IsUnchanged (D.view disk) (D.view result.disk) }
    // At each moment a crash leaves an image of the disk as found, or the cells that were found; former moments stay.
    ensures any_moment { IsTrue D.told → AtEachMoment (MayKeep (D.view disk)) (D.view disk) (D.view result.disk) }
    ensures status { IsLoadEnd result.status }
    // Damage is of the files that it left.
    ensures damage { IsTrue D.told → IsDamageOf result.status (IsStoreDamage (D.view result.disk).files) }
    ensures not_empty { IsTrue D.told → IsNotEmpty result.status (D.view disk).files }
    ensures full { IsTrue D.told → (name : Name) (rest : List Name) → keys (D.view disk).files ≡ name ∷ rest
        → IsOrEarlier result.status (Status.NotEmpty name) (Status.DiskFault ∷ []) }
    ensures disk_cause { result.status ≡ Status.DiskFault → Rose (D.faults disk) (D.faults result.disk) }
    ensures sink_cause { result.status ≡ Status.SinkFault → Rose (K.faults out.old) (K.faults out.new) }
    ensures later { (D.faults disk ≤ D.faults result.disk) × (K.faults out.old ≤ K.faults out.new) }
    // On an empty store, and with no fault, it is done, or memory was refused.
    ensures complete { IsTrue D.told → keys (D.view disk).files ≡ []
        → (Rose (D.faults disk) (D.faults result.disk) → ⊥) → (Rose (K.faults out.old) (K.faults out.new) → ⊥) → IsComplete result.status }
{
    let mut disk = disk;
    match check_empty(alloc, &mut disk) {
        Ok(()) => load_empty(rt, alloc, options, disk, out, gate),
        Err(status) => Outcome {
            status: refuse(out, status),
            disk,
        },
    }
}

/// Carries it out on a disk without files.
fn load_empty<R: Threads + Wait + Sync, D: Disk + Send, K: Sink, G: Gate + Sync>(
    rt: &R,
    alloc: Global,
    options: LoadOptions,
    disk: D,
    out: &mut K,
    gate: &G,
) -> Outcome<D>
    requires options { AreOptions options }
    requires empty { IsTrue D.told → keys (D.view disk).files ≡ [] }

    ensures any_moment { IsTrue D.told → AtEachMoment (MayKeep (D.view disk)) (D.view disk) (D.view result.disk) }
    ensures ends { IsTrue D.told → IsTrue K.told → (script : List ℕ) → EndsLoad result.status options
        (invocation script (D.view disk) (D.view result.disk) (K.taken out.old) (K.taken out.new))
        (Rose (D.faults disk) (D.faults result.disk)) (Rose (K.faults out.old) (K.faults out.new)) }
    ensures refusal { IsTrue K.told → IsRefusal result.status → (text : List ℕ) → refusal_line result.status ≡ Some text
        → Prints (K.taken out.old) (K.taken out.new) text (Rose (K.faults out.old) (K.faults out.new)) }
    ensures status { IsClosedEnd result.status }
    ensures damage { IsTrue D.told → IsDamageOf result.status (IsStoreDamage (D.view result.disk).files) }
    ensures disk_cause { result.status ≡ Status.DiskFault → Rose (D.faults disk) (D.faults result.disk) }
    ensures sink_cause { result.status ≡ Status.SinkFault → Rose (K.faults out.old) (K.faults out.new) }
    ensures later { (D.faults disk ≤ D.faults result.disk) × (K.faults out.old ≤ K.faults out.new) }
    ensures complete { IsTrue D.told → (Rose (D.faults disk) (D.faults result.disk) → ⊥)
        → (Rose (K.faults out.old) (K.faults out.new) → ⊥) → IsComplete result.status }
{
    let Ok(script) = make_script(alloc, options) else {
        return Outcome {
            status: refuse(out, Status::Memory),
            disk,
        };
    };
    let counts = count_calls(&script);
    match carry_out(rt, alloc, script, disk, gate) {
        Ran::Closed {
            disk,
            regions,
            replies,
            spent,
            broken,
        } => {
            // The journals go before the store is opened again, which needs as much.
            drop(regions);
            let mut disk = disk;
            let status = decided_status(alloc, broken, spent, replies);
            let status = end_load(alloc, counts, status, &mut disk, out);
            Outcome { status, disk }
        }
        Ran::Left { disk } => Outcome {
            status: refuse(out, Status::Memory),
            disk,
        },
        Ran::NotOpened { why, disk } => Outcome {
            status: refuse(out, status_of(why)),
            disk,
        },
    }
}

/// With which status the run of a closed server ended.
fn decided_status(
    alloc: Global,
    broken: bool,
    spent: Option<Spent>,
    replies: Vec<ReplyLines>,
) -> Status
    ensures either { (result ≡ decided broken spent (joined replies.items)) ⊎ (result ≡ Status.Memory) }
    ensures range { IsDecided result }
    ensures cause { result ≡ Status.DiskFault → IsTrue broken }
{
    match join_replies(alloc, replies) {
        Ok(lines) => decide(broken, spent, lines.as_slice()),
        Err(NoMemory) => Status::Memory,
    }
}

/// The status of an opening that is refused.
fn status_of(why: StartWhy) -> Status
    ensures { result ≡ status_for why }
{
    match why {
        StartWhy::Memory => Status::Memory,
        StartWhy::DiskFault => Status::DiskFault,
        StartWhy::Damaged(damage) => Status::Damaged(damage),
    }
}
