//! How a load ends once its server is closed.

ghost use Rattle.std.specs.Prelude.{◌≡◌, ◌≢◌, ◌≤◌, ℕ, List, Some, IsTrue};
ghost use Rattle.disk_images.specs.Calls.{Rose};
ghost use Rattle.script_model.specs.Outputs.{refused_memory};
ghost use Rattle.made_script.specs.Counts.{counts_of};
ghost use Rattle.made_script.specs.Made.{made_script};
ghost use Rattle.made_script.specs.declared.options.LoadOptions.{LoadOptions};
ghost use Rattle.load_model.specs.Text.{load_text, ended_text};
ghost use Rattle.run_model.specs.Headline.{MayKeep};
ghost use Rattle.command_base.specs.Invocation.{invocation, AtEachMoment};
ghost use Rattle.command_base.specs.Prints.{Prints};
ghost use Rattle.command_base.specs.Status.{refusal_line, exit_status, IsComplete, IsDamageOf, IsRefusal, IsPrintEnd, IsReadingEnd};
ghost use Rattle.run_command.specs.recover_command.Recovered.{IsStoreDamage};
ghost use Rattle.run_command.specs.recover_command.Refusals.{refused_as};
ghost use Rattle.load_command.specs.Ends.{EndsLoad, HasEnded};
ghost use Rattle.load_command.specs.Statuses.{IsDecided, IsClosedEnd, IsPrintedAs};

use crate::counting::count_cells;
use crate::text::{ended_text, whole_text};
use command_base::{Status, emit, refuse};
use disk_images::{Disk, Sink};
use kv_cell::NoMemory;
use made_script::CallCounts;
use run_command::found_files::SplitRefusal;
use run_command::region_replay::recover_all;
use std::alloc::Global;

/// Ends a load whose run ended with this status. Only where it is done the store is recovered.
pub fn end_load<D: Disk, K: Sink>(
    alloc: Global,
    counts: CallCounts,
    status: Status,
    disk: &mut D,
    out: &mut K,
) -> Status
    requires { IsDecided status }
    ensures any_moment { IsTrue D.told → (options : LoadOptions) (first : D) → HasEnded options (D.view first) (D.view disk.old) status
        → AtEachMoment (MayKeep (D.view first)) (D.view disk.old) (D.view disk.new) }
    ensures ends { IsTrue D.told → IsTrue K.told → (options : LoadOptions) (first : D) (script : List ℕ) → counts ≡ counts_of (made_script options)
        → HasEnded options (D.view first) (D.view disk.old) status → (status ≡ Status.DiskFault → Rose (D.faults first) (D.faults disk.new))
        → D.faults first ≤ D.faults disk.old
        → EndsLoad result options (invocation script (D.view first) (D.view disk.new) (K.taken out.old) (K.taken out.new))
        (Rose (D.faults first) (D.faults disk.new)) (Rose (K.faults out.old) (K.faults out.new)) }
    ensures refusal { IsTrue K.told → IsRefusal result → (text : List ℕ) → refusal_line result ≡ Some text
        → Prints (K.taken out.old) (K.taken out.new) text (Rose (K.faults out.old) (K.faults out.new)) }
    ensures status { IsClosedEnd result }
    ensures damage { IsTrue D.told → IsDamageOf result (IsStoreDamage (D.view disk.new).files) }
    ensures disk_cause { result ≡ Status.DiskFault → status ≢ Status.DiskFault → Rose (D.faults disk.old) (D.faults disk.new) }
    ensures sink_cause { result ≡ Status.SinkFault → Rose (K.faults out.old) (K.faults out.new) }
    ensures later { (D.faults disk.old ≤ D.faults disk.new) × (K.faults out.old ≤ K.faults out.new) }
    ensures complete { IsTrue D.told → (options : LoadOptions) (first : D) → HasEnded options (D.view first) (D.view disk.old) status
        → (status ≢ Status.DiskFault) → (Rose (D.faults disk.old) (D.faults disk.new) → ⊥)
        → (Rose (K.faults out.old) (K.faults out.new) → ⊥) → IsComplete result }
{
    match status {
        Status::Memory => refuse(out, Status::Memory),
        Status::Done => recover_load(alloc, counts, disk, out),
        _ => print_ended(alloc, counts, status, out),
    }
}

/// Prints how many calls there were, and with which status the load ended.
fn print_ended<K: Sink>(alloc: Global, counts: CallCounts, status: Status, out: &mut K) -> Status
    requires printed { status ≢ Status.SinkFault }
    requires found { status ≢ Status.Memory }
    ensures status { IsPrintedAs status result }
    ensures prints { IsTrue K.told → result ≢ Status.Memory
        → Prints (K.taken out.old) (K.taken out.new) (ended_text counts (exit_status status)) (result ≡ Status.SinkFault) }
    ensures refusal { IsTrue K.told → result ≡ Status.Memory
        → Prints (K.taken out.old) (K.taken out.new) refused_memory (Rose (K.faults out.old) (K.faults out.new)) }
    ensures later { K.faults out.old ≤ K.faults out.new }
    ensures cause { result ≡ Status.SinkFault → Rose (K.faults out.old) (K.faults out.new) }
{
    match ended_text(alloc, counts, status.number()) {
        Ok(text) => emit(out, &text, status),
        Err(NoMemory) => refuse(out, Status::Memory),
    }
}

/// Opens the store that a run left, and prints how many calls there were and how many cells are there; where the disk fails, the calls alone.
fn recover_load<D: Disk, K: Sink>(
    alloc: Global,
    counts: CallCounts,
    disk: &mut D,
    out: &mut K,
) -> Status
    ensures any_moment { IsTrue D.told → (options : LoadOptions) (first : D) → HasEnded options (D.view first) (D.view disk.old) Status.Done
        → AtEachMoment (MayKeep (D.view first)) (D.view disk.old) (D.view disk.new) }
    ensures ends { IsTrue D.told → IsTrue K.told → (options : LoadOptions) (first : D) (script : List ℕ) → counts ≡ counts_of (made_script options)
        → HasEnded options (D.view first) (D.view disk.old) Status.Done → D.faults first ≤ D.faults disk.old
        → EndsLoad result options (invocation script (D.view first) (D.view disk.new) (K.taken out.old) (K.taken out.new))
        (Rose (D.faults first) (D.faults disk.new)) (Rose (K.faults out.old) (K.faults out.new)) }
    ensures refusal { IsTrue K.told → IsRefusal result → (text : List ℕ) → refusal_line result ≡ Some text
        → Prints (K.taken out.old) (K.taken out.new) text (Rose (K.faults out.old) (K.faults out.new)) }
    ensures status { IsReadingEnd result }
    ensures damage { IsTrue D.told → IsDamageOf result (IsStoreDamage (D.view disk.new).files) }
    ensures disk_cause { result ≡ Status.DiskFault → Rose (D.faults disk.old) (D.faults disk.new) }
    ensures sink_cause { result ≡ Status.SinkFault → Rose (K.faults out.old) (K.faults out.new) }
    ensures later { (D.faults disk.old ≤ D.faults disk.new) × (K.faults out.old ≤ K.faults out.new) }
    ensures complete { IsTrue D.told → (options : LoadOptions) (first : D) → HasEnded options (D.view first) (D.view disk.old) Status.Done
        → (Rose (D.faults disk.old) (D.faults disk.new) → ⊥)
        → (Rose (K.faults out.old) (K.faults out.new) → ⊥) → IsComplete result }
{
    match recover_all(alloc, disk) {
        Ok(regions) => print_loaded(alloc, counts, count_cells(regions.as_slice()), out),
        Err(refusal) => match status_of(refusal) {
            Status::DiskFault => print_ended(alloc, counts, Status::DiskFault, out),
            status => refuse(out, status),
        },
    }
}

fn status_of(refusal: SplitRefusal) -> Status
    ensures { result ≡ refused_as refusal }
{
    match refusal {
        SplitRefusal::Memory => Status::Memory,
        SplitRefusal::DiskFault => Status::DiskFault,
        SplitRefusal::Damaged(damage) => Status::Damaged(damage),
    }
}

/// Prints how many calls there were, and how many cells are there.
fn print_loaded<K: Sink>(alloc: Global, counts: CallCounts, cells: u64, out: &mut K) -> Status
    ensures status { IsPrintEnd result }
    ensures prints { IsTrue K.told → result ≢ Status.Memory
        → Prints (K.taken out.old) (K.taken out.new) (load_text counts cells) (result ≡ Status.SinkFault) }
    ensures refusal { IsTrue K.told → result ≡ Status.Memory
        → Prints (K.taken out.old) (K.taken out.new) refused_memory (Rose (K.faults out.old) (K.faults out.new)) }
    ensures later { K.faults out.old ≤ K.faults out.new }
    ensures cause { result ≡ Status.SinkFault → Rose (K.faults out.old) (K.faults out.new) }
{
    match whole_text(alloc, counts, cells) {
        Ok(text) => emit(out, &text, Status::Done),
        Err(NoMemory) => refuse(out, Status::Memory),
    }
}
