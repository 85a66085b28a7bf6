//! The command `show`: prints what log 1 holds.

ghost use Rattle.std.specs.Prelude.{◌≡◌, ◌≢◌, ◌≤◌, [], ◌∷◌, ℕ, List, Option, Some, IsTrue, IfOk, IfErr, IsErrOf};
ghost use Rattle.disk_images.specs.Calls.{Rose, HasCause};
ghost use Rattle.script_model.specs.Outputs.{show_text, refused_memory};
ghost use Rattle.command_base.specs.Invocation.{invocation, IsUnchanged, KeepsImages};
ghost use Rattle.command_base.specs.LogFiles.{log_name, IsDamagedLog, IsLogDamage, IsLogRefusal, ReportsDamage};
ghost use Rattle.command_base.specs.Prints.{Prints};
ghost use Rattle.command_base.specs.Status.{refusal_line, IsDamageOf, IsOrEarlier, IsPrintEnd, IsReadingEnd};
ghost use Rattle.show_command.specs.Parts.{HasLogEntries};
ghost use Rattle.show_command.specs.Shown.{EndsShow};

use crate::text::text_of;
use command_base::{Damage, LOG_1, Status, emit, find_log, refuse};
use disk_images::{Disk, Sink};
use kv_cell::NoMemory;
use log_file::EntryList;
use std::alloc::Global;

/// Carries out `show`. It writes nothing to the disk.
pub fn show<D: Disk, K: Sink>(alloc: Global, disk: &mut D, out: &mut K) -> Status
    ensures ends { IsTrue D.told → IsTrue K.told → (script : List ℕ) → EndsShow result
        (invocation script (D.view disk.old) (D.view disk.new) (K.taken out.old) (K.taken out.new)) (Rose (D.faults disk.old) (D.faults disk.new))
        (Rose (K.faults out.old) (K.faults out.new)) }
    ensures refusal { IsTrue K.told → (text : List ℕ) → refusal_line result ≡ Some text
        → Prints (K.taken out.old) (K.taken out.new) text (Rose (K.faults out.old) (K.faults out.new)) }
    ensures leaves_disk { IsTrue D.told → IsUnchanged (D.view disk.old) (D.view disk.new) }
    ensures moments { IsTrue D.told → KeepsImages (D.view disk.old) (D.view disk.new) }
    ensures status { IsReadingEnd result }
    ensures damage { IsTrue D.told → IsDamageOf result (IsLogDamage (D.view disk.old).files (log_name 1)) }
    ensures damaged { IsTrue D.told → (at : ℕ) → IsDamagedLog (D.view disk.old).files (log_name 1) at
        → IsOrEarlier result (Status.Damaged (Damage.Bytes (log_name 1) at)) (Status.DiskFault ∷ []) }
    ensures disk_cause { result ≡ Status.DiskFault → Rose (D.faults disk.old) (D.faults disk.new) }
    ensures sink_cause { result ≡ Status.SinkFault → Rose (K.faults out.old) (K.faults out.new) }
    ensures later { (D.faults disk.old ≤ D.faults disk.new) × (K.faults out.old ≤ K.faults out.new) }
{
    match read_entries(alloc, disk) {
        Ok(entries) => print_entries(alloc, entries, out),
        Err(status) => refuse(out, status),
    }
}

/// The entries of log 1, none where it isn't there.
fn read_entries<D: Disk>(alloc: Global, disk: &mut D) -> Result<EntryList, Status>
    ensures found { IsTrue D.told → IfOk result (λ entries. HasLogEntries (D.view disk.old).files entries) }
    ensures damage { IsTrue D.told → IfErr result (λ status. IsDamageOf status (IsLogDamage (D.view disk.old).files (log_name 1))) }
    ensures damaged { IsTrue D.told → (at : ℕ) → IsDamagedLog (D.view disk.old).files (log_name 1) at → ReportsDamage (log_name 1) result at }
    ensures refused { IfErr result IsLogRefusal }
    ensures unchanged { IsTrue D.told → IsUnchanged (D.view disk.old) (D.view disk.new) }
    ensures moments { IsTrue D.told → KeepsImages (D.view disk.old) (D.view disk.new) }
    ensures cause { HasCause (D.faults disk.old) (D.faults disk.new) (IsErrOf result Status.DiskFault) }
{
    match find_log(alloc, disk, LOG_1) {
        Ok(Some(text)) => Ok(text.entries),
        Ok(None) => Ok(EntryList::of(Vec::new(alloc))),
        Err(status) => Err(status),
    }
}

/// Prints the content of the entries.
fn print_entries<K: Sink>(alloc: Global, entries: EntryList, out: &mut K) -> Status
    ensures status { IsPrintEnd result }
    ensures prints { IsTrue K.told → result ≢ Status.Memory → Prints (K.taken out.old) (K.taken out.new) (show_text entries) (result ≡ Status.SinkFault) }
    ensures refusal { IsTrue K.told → result ≡ Status.Memory
        → Prints (K.taken out.old) (K.taken out.new) refused_memory (Rose (K.faults out.old) (K.faults out.new)) }
    ensures later { K.faults out.old ≤ K.faults out.new }
    ensures cause { result ≡ Status.SinkFault → Rose (K.faults out.old) (K.faults out.new) }
{
    match text_of(alloc, entries.into_vec()) {
        Ok(text) => emit(out, &text, Status::Done),
        Err(NoMemory) => refuse(out, Status::Memory),
    }
}
