//! Reading the file that counts as a log.

ghost use Rattle.std.specs.Prelude.{◌≡◌, ◌≢◌, ◌+◌, ℕ, List, length, IsTrue, IfOk, IfErr, IsErrOf};
ghost use Rattle.log_model.specs.declared.name.Name.{Name as TheName};
ghost use Rattle.log_model.specs.LogText.{IsLogText, IsDamaged};
ghost use Rattle.log_model.specs.Files.{Reads, key_of};
ghost use Rattle.disk_images.specs.Calls.{HasCause};
ghost use Rattle.file_base.specs.Looking.{OnlyLooks};
ghost use Rattle.log_tail.specs.Failures.{IsReadingRefusal, refusal_of};

use crate::refusal::TailRefusal;
use disk_images::{Disk, Name};
use log_file::{LogText, ReadRefusal, read_log};
use std::alloc::Global;

/// Reads a log or old log that is there, and tells its name where it is damaged.
pub(crate) fn read_counted<D: Disk>(
    alloc: Global,
    disk: &mut D,
    name: Name,
) -> Result<LogText, TailRefusal>
    requires { IsTrue D.told → ∥ ((c : List ℕ) × Reads (D.view disk.old).files name c) ∥₁ }

    ensures text { IsTrue D.told → (c : List ℕ) → Reads (D.view disk.old).files name c
        → IfOk result (λ text. IsLogText (key_of name) c text.entries text.ended) }
    ensures refused { IsTrue D.told → (c : List ℕ) → Reads (D.view disk.old).files name c → IfErr result (IsReadingRefusal name c) }
    ensures looks { IsTrue D.told → (c : List ℕ) → Reads (D.view disk.old).files name c → OnlyLooks (length c + 1) (D.view disk.old) (D.view disk.new) }
    ensures cause { HasCause (D.faults disk.old) (D.faults disk.new) (IsErrOf result TailRefusal.DiskFault) }
{
    match read_log(alloc, disk, name) {
        Ok(text) => Ok(text),
        Err(e) => Err(named(e, name)),
    }
}

/// The refusal with the name of the file.
fn named(e: ReadRefusal, name: Name) -> TailRefusal
    ensures { result ≡ refusal_of e name }
{
    match e {
        ReadRefusal::Memory => TailRefusal::Memory,
        ReadRefusal::DiskFault => TailRefusal::DiskFault,
        ReadRefusal::Damaged { at } => TailRefusal::Damaged { name, at },
    }
}
