//! The command `dump`: prints the entries of a log, or of an old log.

ghost use Rattle.std.specs.Prelude.{◌≡◌, ◌≢◌, ◌≤◌, [], ◌∷◌, ℕ, List, Some, IsTrue, IfOk, IfErr, IsErrOf};
ghost use Rattle.log_model.specs.declared.name.Name.{Name as TheName};
ghost use Rattle.disk_images.specs.Calls.{Rose, HasCause};
ghost use Rattle.script_model.specs.Outputs.{refused_memory};
ghost use Rattle.command_base.specs.Invocation.{invocation, IsUnchanged, KeepsImages};
ghost use Rattle.command_base.specs.LogFiles.{IsDamagedLog, IsLogDamage, IsLogRefusal, ReportsDamage};
ghost use Rattle.command_base.specs.Prints.{Prints};
ghost use Rattle.command_base.specs.Status.{refusal_line, IsDamageOf, IsOrEarlier, IsPrintEnd, IsReadingEnd};
ghost use Rattle.dump_command.specs.Dumped.{EndsDump, IsDumped, IsDumpDamage, old_name};
ghost use Rattle.dump_command.specs.Found.{HasFound, HasOldFound, IsOfNumber, found_text};

use command_base::{Damage, Status, emit, find_log, refuse};
use disk_images::{Disk, Name, NameKind, Sink};
use kv_cell::NoMemory;
use log_file::LogText;
use std::alloc::Global;
use wal_dump::dump_text;

/// A log or an old log, and what stands in it.
#[derive(Drop)]
pub struct Found {
    pub name: Name,
    pub text: LogText,
}

/// Carries out `dump` for a number. It writes nothing to the disk.
pub fn dump<D: Disk, K: Sink>(alloc: Global, number: u64, disk: &mut D, out: &mut K) -> Status
    ensures ends { IsTrue D.told → IsTrue K.told → (script : List ℕ) → EndsDump number result
        (invocation script (D.view disk.old) (D.view disk.new) (K.taken out.old) (K.taken out.new)) (Rose (D.faults disk.old) (D.faults disk.new))
        (Rose (K.faults out.old) (K.faults out.new)) }
    ensures refusal { IsTrue K.told → (text : List ℕ) → refusal_line result ≡ Some text
        → Prints (K.taken out.old) (K.taken out.new) text (Rose (K.faults out.old) (K.faults out.new)) }
    ensures leaves_disk { IsTrue D.told → IsUnchanged (D.view disk.old) (D.view disk.new) }
    ensures moments { IsTrue D.told → KeepsImages (D.view disk.old) (D.view disk.new) }
    ensures status { IsReadingEnd result }
    ensures damage { IsTrue D.told → IsDamageOf result (IsDumpDamage number (D.view disk.old).files) }
    ensures damaged { IsTrue D.told → (name : TheName) (at : ℕ) → IsDumped (D.view disk.old).files number name → IsDamagedLog (D.view disk.old).files name at
        → IsOrEarlier result (Status.Damaged (Damage.Bytes name at)) (Status.DiskFault ∷ []) }
    ensures disk_cause { result ≡ Status.DiskFault → Rose (D.faults disk.old) (D.faults disk.new) }
    ensures sink_cause { result ≡ Status.SinkFault → Rose (K.faults out.old) (K.faults out.new) }
    ensures later { (D.faults disk.old ≤ D.faults disk.new) × (K.faults out.old ≤ K.faults out.new) }
{
    match find_either(alloc, number, disk) {
        Ok(found) => print_found(alloc, number, found, out),
        Err(status) => refuse(out, status),
    }
}

/// The log of this number, or the old log where there is no such log.
fn find_either<D: Disk>(alloc: Global, number: u64, disk: &mut D) -> Result<Option<Found>, Status>
    ensures found { IsTrue D.told → IfOk result (λ found. HasFound (D.view disk.old).files number found) }
    ensures number { IfOk result (λ found. IsOfNumber number found) }
    ensures damage { IsTrue D.told → IfErr result (λ status. IsDamageOf status (IsDumpDamage number (D.view disk.old).files)) }
    ensures damaged { IsTrue D.told → (name : TheName) (at : ℕ) → IsDumped (D.view disk.old).files number name → IsDamagedLog (D.view disk.old).files name at
        → ReportsDamage name result at }
    ensures refused { IfErr result IsLogRefusal }
    ensures unchanged { IsTrue D.told → IsUnchanged (D.view disk.old) (D.view disk.new) }
    ensures moments { IsTrue D.told → KeepsImages (D.view disk.old) (D.view disk.new) }
    ensures cause { HasCause (D.faults disk.old) (D.faults disk.new) (IsErrOf result Status.DiskFault) }
{
    let log = name_of(NameKind::Log, number);
    match find_log(alloc, disk, log) {
        Ok(Some(text)) => Ok(Some(Found { name: log, text })),
        Ok(None) => find_old(alloc, number, disk),
        Err(status) => Err(status),
    }
}

/// The old log of this number.
fn find_old<D: Disk>(alloc: Global, number: u64, disk: &mut D) -> Result<Option<Found>, Status>
    ensures found { IsTrue D.told → IfOk result (λ found. HasOldFound (D.view disk.old).files number found) }
    ensures number { IfOk result (λ found. IsOfNumber number found) }
    ensures damage { IsTrue D.told → IfErr result (λ status. IsDamageOf status (IsLogDamage (D.view disk.old).files (old_name number))) }
    ensures damaged { IsTrue D.told → (at : ℕ) → IsDamagedLog (D.view disk.old).files (old_name number) at → ReportsDamage (old_name number) result at }
    ensures refused { IfErr result IsLogRefusal }
    ensures unchanged { IsTrue D.told → IsUnchanged (D.view disk.old) (D.view disk.new) }
    ensures moments { IsTrue D.told → KeepsImages (D.view disk.old) (D.view disk.new) }
    ensures cause { HasCause (D.faults disk.old) (D.faults disk.new) (IsErrOf result Status.DiskFault) }
{
    let old = name_of(NameKind::Old, number);
    match find_log(alloc, disk, old) {
        Ok(Some(text)) => Ok(Some(Found { name: old, text })),
        Ok(None) => Ok(None),
        Err(status) => Err(status),
    }
}

fn name_of(kind: NameKind, number: u64) -> Name
    ensures { result ≡ record { kind = kind; region = 0; number = number } }
{
    Name {
        kind,
        region: 0,
        number,
    }
}

/// Prints the entries that were found, or that there is no such log.
fn print_found<K: Sink>(alloc: Global, number: u64, found: Option<Found>, out: &mut K) -> Status
    requires { IsOfNumber number found }
    ensures status { IsPrintEnd result }
    ensures prints { IsTrue K.told → result ≢ Status.Memory → Prints (K.taken out.old) (K.taken out.new) (found_text found) (result ≡ Status.SinkFault) }
    ensures refusal { IsTrue K.told → result ≡ Status.Memory
        → Prints (K.taken out.old) (K.taken out.new) refused_memory (Rose (K.faults out.old) (K.faults out.new)) }
    ensures later { K.faults out.old ≤ K.faults out.new }
    ensures cause { result ≡ Status.SinkFault → Rose (K.faults out.old) (K.faults out.new) }
{
    match found {
        None => emit(out, b"none\nend 0\n", Status::Done),
        Some(Found { name, text }) => match dump_text(alloc, name, &text) {
            Ok(text) => emit(out, text.as_slice(), Status::Done),
            Err(NoMemory) => refuse(out, Status::Memory),
        },
    }
}
