//! The command `compact`.

ghost use Rattle.std.specs.Prelude.{◌≡◌, ◌≤◌, [], ◌∷◌, ℕ, List, Err, Some, IsTrue, IfOk, IfErr, OnOk, IsErrOf};
ghost use Rattle.log_model.specs.declared.damage.Damage.{Damage as TheDamage};
ghost use Rattle.log_model.specs.Files.{Files, IsSound};
ghost use Rattle.log_model.specs.Damage.{IsDamage};
ghost use Rattle.disk_images.specs.Crash.{IsImageNow};
ghost use Rattle.disk_images.specs.Calls.{Rose, HasCause};
ghost use Rattle.wal_split.specs.Moments.{During, WasOrAlike};
ghost use Rattle.command_base.specs.Invocation.{invocation, AtEachMoment};
ghost use Rattle.command_base.specs.Prints.{Prints};
ghost use Rattle.command_base.specs.Status.{refusal_line, IfDamaged, IsDamageOf, IsOrEarlier, IsReadingEnd};
ghost use Rattle.recover_command.specs.Recovered.{IsStoreDamage};
ghost use Rattle.recover_command.specs.Refusals.{refused_as};
ghost use Rattle.compact_command.specs.Compacted.{CompactMayLeave, HasCompacted, EndsCompact};
ghost use Rattle.compact_command.specs.Refusals.{IsOpeningRefusal};

use crate::compaction::{Compaction, compact_opened};
use crate::text::text_of;
use command_base::{Status, emit, refuse};
use disk_images::{Disk, Sink};
use found_files::SplitRefusal;
use region_replay::recover_all;
use std::alloc::Global;
use store_compact::CompactKind;

/// Carries out `compact` for a region, 1 to 64: opens the store, compacts the region's store files into one, and prints how
/// many cells were stored and how many are kept, or how many store files count where these are too few. After a fault of the
/// disk some of the work may be done: what a crash leaves then recovers to the same, or is compacted, and the command may be
/// given again. Memory comes before any file of the compaction is made.
pub fn compact_region<D: Disk, K: Sink>(
    alloc: Global,
    disk: &mut D,
    region: u32,
    kind: CompactKind,
    out: &mut K,
) -> Status
    requires { (1 ≤ region) × (region ≤ 64) }

    ensures ends { IsTrue D.told → IsTrue K.told → (script : List ℕ) → EndsCompact region kind result
        (invocation script (D.view disk.old) (D.view disk.new) (K.taken out.old) (K.taken out.new)) (Rose (D.faults disk.old) (D.faults disk.new))
        (Rose (K.faults out.old) (K.faults out.new)) }
    ensures refusal { IsTrue K.told → (text : List ℕ) → refusal_line result ≡ Some text
        → Prints (K.taken out.old) (K.taken out.new) text (Rose (K.faults out.old) (K.faults out.new)) }
    // At each moment a crash leaves an image of the disk as found, files that recover alike, or such files with the region compacted.
    ensures any_moment { IsTrue D.told → AtEachMoment (CompactMayLeave region kind (D.view disk.old)) (D.view disk.old) (D.view disk.new) }
    ensures damage_leaves { IsTrue D.told → IfDamaged result ((D.view disk.new).files ≡ (D.view disk.old).files) }
    ensures status { IsReadingEnd result }
    ensures damage { IsTrue D.told → IsDamageOf result (IsStoreDamage (D.view disk.old).files) }
    ensures damaged { IsTrue D.told → (damage : TheDamage) → (¬ IsSound (D.view disk.old).files) → IsDamage (D.view disk.old).files damage
        → IsOrEarlier result (Status.Damaged damage) (Status.DiskFault ∷ []) }
    ensures disk_cause { result ≡ Status.DiskFault → Rose (D.faults disk.old) (D.faults disk.new) }
    ensures sink_cause { result ≡ Status.SinkFault → Rose (K.faults out.old) (K.faults out.new) }
    ensures later { (D.faults disk.old ≤ D.faults disk.new) × (K.faults out.old ≤ K.faults out.new) }
{
    match compact_store(alloc, disk, region, kind) {
        Ok(compaction) => emit(
            out,
            text_of(region, compaction).as_str().as_bytes(),
            Status::Done,
        ),
        Err(status) => refuse(out, status),
    }
}

/// Opens the store and compacts the region. What was opened is let go before: a compaction reads its region's files anew.
fn compact_store<D: Disk>(
    alloc: Global,
    disk: &mut D,
    region: u32,
    kind: CompactKind,
) -> Result<Compaction, Status>
    requires { (1 ≤ region) × (region ≤ 64) }

    ensures done { IsTrue D.told → IfOk result (HasCompacted region kind (D.view disk.old) (D.view disk.new)) }
    ensures any_moment { IsTrue D.told → During (CompactMayLeave region kind (D.view disk.old)) (D.view disk.old) (D.view disk.new) }
    ensures memory { IsTrue D.told → IsErrOf result Status.Memory → (J : Files) → IsImageNow (D.view disk.new) J → WasOrAlike (D.view disk.old) J }
    ensures refused { IfErr result IsOpeningRefusal }
    ensures sound { IsTrue D.told → OnOk result (IsSound (D.view disk.old).files) }
    ensures damage { IsTrue D.told → IfErr result (λ status. IsDamageOf status (IsStoreDamage (D.view disk.old).files)) }
    ensures damage_leaves { IsTrue D.told → IfErr result (λ status. IfDamaged status ((D.view disk.new).files ≡ (D.view disk.old).files)) }
    ensures damaged { IsTrue D.told → (damage : TheDamage) → (¬ IsSound (D.view disk.old).files) → IsDamage (D.view disk.old).files damage
        → IfErr result (λ status. IsOrEarlier status (Status.Damaged damage) (Status.DiskFault ∷ [])) }
    ensures cause { HasCause (D.faults disk.old) (D.faults disk.new) (IsErrOf result Status.DiskFault) }
{
    match recover_all(alloc, disk) {
        Ok(regions) => {
            drop(regions);
            compact_opened(alloc, disk, region, kind)
        }
        Err(refusal) => Err(status_of(refusal)),
    }
}

fn status_of(refusal: SplitRefusal) -> Status
    ensures { result ≡ refused_as refusal }
{
    match refusal {
        SplitRefusal::Memory => Status::Memory,
        SplitRefusal::DiskFault => Status::DiskFault,
        SplitRefusal::Damaged(damage) => Status::Damaged(damage),
    }
}
