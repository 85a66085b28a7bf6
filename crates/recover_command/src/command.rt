//! The command `recover`.

ghost use Rattle.std.specs.Prelude.{◌≡◌, ◌≢◌, ◌≤◌, [], ◌∷◌, ℕ, List, Some, length, IsTrue};
ghost use Rattle.log_model.specs.declared.damage.Damage.{Damage as TheDamage};
ghost use Rattle.log_model.specs.Files.{Files, IsSound};
ghost use Rattle.log_model.specs.Damage.{IsDamage};
ghost use Rattle.disk_images.specs.Calls.{Rose};
ghost use Rattle.wal_split.specs.Moments.{WasOrAlike};
ghost use Rattle.script_model.specs.Outputs.{recover_text, refused_memory};
ghost use Rattle.command_base.specs.Invocation.{invocation, AtEachMoment};
ghost use Rattle.command_base.specs.Prints.{Prints};
ghost use Rattle.command_base.specs.Status.{refusal_line, IfDamaged, IsDamageOf, IsOrEarlier, IsPrintEnd, IsReadingEnd};
ghost use Rattle.recover_command.specs.Lines.{lines_from};
ghost use Rattle.recover_command.specs.Recovered.{EndsRecover, IsStoreDamage};
ghost use Rattle.recover_command.specs.Refusals.{refused_as};

use crate::text::text_of;
use command_base::{Status, emit, refuse};
use disk_images::{Disk, Sink};
use found_files::SplitRefusal;
use kv_cell::NoMemory;
use region_replay::{Recovered, recover_all};
use std::alloc::Global;

/// Carries out `recover`: opens the store, and prints the last sequence id and the number of cells of each region that has
/// any. Memory and a fault of the disk may come when some of the work was done: what a crash leaves then recovers to the
/// same, and the command may be given again.
pub fn recover<D: Disk, K: Sink>(alloc: Global, disk: &mut D, out: &mut K) -> Status
    ensures ends { IsTrue D.told → IsTrue K.told → (script : List ℕ) → EndsRecover result
        (invocation script (D.view disk.old) (D.view disk.new) (K.taken out.old) (K.taken out.new)) (Rose (D.faults disk.old) (D.faults disk.new))
        (Rose (K.faults out.old) (K.faults out.new)) }
    ensures refusal { IsTrue K.told → (text : List ℕ) → refusal_line result ≡ Some text
        → Prints (K.taken out.old) (K.taken out.new) text (Rose (K.faults out.old) (K.faults out.new)) }
    // At each moment a crash leaves an image of the disk as found, or files that recover alike for every region.
    ensures any_moment { IsTrue D.told → AtEachMoment (WasOrAlike (D.view disk.old)) (D.view disk.old) (D.view disk.new) }
    ensures damage_leaves { IsTrue D.told → IfDamaged result ((D.view disk.new).files ≡ (D.view disk.old).files) }
    ensures status { IsReadingEnd result }
    ensures damage { IsTrue D.told → IsDamageOf result (IsStoreDamage (D.view disk.old).files) }
    ensures damaged { IsTrue D.told → (damage : TheDamage) → (¬ IsSound (D.view disk.old).files) → IsDamage (D.view disk.old).files damage
        → IsOrEarlier result (Status.Damaged damage) (Status.DiskFault ∷ []) }
    ensures disk_cause { result ≡ Status.DiskFault → Rose (D.faults disk.old) (D.faults disk.new) }
    ensures sink_cause { result ≡ Status.SinkFault → Rose (K.faults out.old) (K.faults out.new) }
    ensures later { (D.faults disk.old ≤ D.faults disk.new) × (K.faults out.old ≤ K.faults out.new) }
{
    match recover_all(alloc, disk) {
        Ok(regions) => print_regions(alloc, &regions, out),
        Err(refusal) => refuse(out, status_of(refusal)),
    }
}

fn status_of(refusal: SplitRefusal) -> Status
    ensures { result ≡ refused_as refusal }
{
    match refusal {
        SplitRefusal::Memory => Status::Memory,
        SplitRefusal::DiskFault => Status::DiskFault,
        SplitRefusal::Damaged(damage) => Status::Damaged(damage),
    }
}

/// Prints the regions, each with its last sequence id and the number of its cells.
fn print_regions<K: Sink>(alloc: Global, regions: &Recovered, out: &mut K) -> Status
    ensures status { IsPrintEnd result }
    ensures prints { IsTrue K.told → result ≢ Status.Memory
        → Prints (K.taken out.old) (K.taken out.new) (recover_text (lines_from 1 regions.now)) (result ≡ Status.SinkFault) }
    ensures refusal { IsTrue K.told → result ≡ Status.Memory
        → Prints (K.taken out.old) (K.taken out.new) refused_memory (Rose (K.faults out.old) (K.faults out.new)) }
    ensures later { K.faults out.old ≤ K.faults out.new }
    ensures cause { result ≡ Status.SinkFault → Rose (K.faults out.old) (K.faults out.new) }
{
    match text_of(alloc, regions.as_slice()) {
        Ok(text) => emit(out, &text, Status::Done),
        Err(NoMemory) => refuse(out, Status::Memory),
    }
}
