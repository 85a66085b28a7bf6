//! Reading a log of the store.

ghost use Rattle.std.specs.Prelude.{◌≡◌, ◌+◌, ℕ, List, length, IsTrue, IfOk, IfErr, IsErrOf, MatchOption};
ghost use Rattle.log_model.specs.Files.{IsAbsent, Reads};
ghost use Rattle.disk_images.specs.Calls.{HasCause};
ghost use Rattle.file_base.specs.Looking.{OnlyLooks};
ghost use Rattle.command_base.specs.Invocation.{IsUnchanged, KeepsImages};
ghost use Rattle.command_base.specs.LogFiles.{IsFound, IsDamagedLog, IsLogDamage, IsLogRefusal, ReportsDamage};
ghost use Rattle.command_base.specs.Status.{IsDamageOf};

use crate::status::Status;
use disk_images::{Disk, Name};
use log_file::{LogText, ReadRefusal, read_log};
use log_model::Damage;
use std::alloc::Global;

/// The log of this name, if there is one. It writes nothing to the disk.
pub fn find_log<D: Disk>(alloc: Global, disk: &mut D, name: Name) -> Result<Option<LogText>, Status>
    ensures found { IsTrue D.told → IfOk result (λ found. MatchOption found (IsAbsent (D.view disk.old).files name)
        (λ text. IsFound (D.view disk.old).files name text.entries text.ended)) }
    ensures damage { IsTrue D.told → IfErr result (λ status. IsDamageOf status (IsLogDamage (D.view disk.old).files name)) }
    ensures damaged { IsTrue D.told → (at : ℕ) → IsDamagedLog (D.view disk.old).files name at → ReportsDamage name result at }
    ensures refused { IfErr result IsLogRefusal }
    ensures unchanged { IsTrue D.told → IsUnchanged (D.view disk.old) (D.view disk.new) }
    ensures moments { IsTrue D.told → KeepsImages (D.view disk.old) (D.view disk.new) }
    ensures cause { HasCause (D.faults disk.old) (D.faults disk.new) (IsErrOf result Status.DiskFault) }
{
    match disk.size(name) {
        Ok(Some(_)) => match read_there(alloc, disk, name) {
            Ok(text) => Ok(Some(text)),
            Err(status) => Err(status),
        },
        Ok(None) => Ok(None),
        Err(_) => Err(Status::DiskFault),
    }
}

/// The log of this name, which is there.
fn read_there<D: Disk>(alloc: Global, disk: &mut D, name: Name) -> Result<LogText, Status>
    requires { IsTrue D.told → ∥ ((c : List ℕ) × Reads (D.view disk.old).files name c) ∥₁ }
    ensures found { IsTrue D.told → (c : List ℕ) → Reads (D.view disk.old).files name c
        → IfOk result (λ text. IsFound (D.view disk.old).files name text.entries text.ended) }
    ensures damage { IsTrue D.told → (c : List ℕ) → Reads (D.view disk.old).files name c
        → IfErr result (λ status. IsDamageOf status (IsLogDamage (D.view disk.old).files name)) }
    ensures damaged { IsTrue D.told → (c : List ℕ) → Reads (D.view disk.old).files name c → (at : ℕ) → IsDamagedLog (D.view disk.old).files name at
        → ReportsDamage name result at }
    ensures refused { IfErr result IsLogRefusal }
    ensures looks { IsTrue D.told → (c : List ℕ) → Reads (D.view disk.old).files name c → OnlyLooks (length c + 1) (D.view disk.old) (D.view disk.new) }
    ensures cause { HasCause (D.faults disk.old) (D.faults disk.new) (IsErrOf result Status.DiskFault) }
{
    match read_log(alloc, disk, name) {
        Ok(text) => Ok(text),
        Err(ReadRefusal::Memory) => Err(Status::Memory),
        Err(ReadRefusal::DiskFault) => Err(Status::DiskFault),
        Err(ReadRefusal::Damaged { at }) => Err(Status::Damaged(Damage::Bytes { name, at })),
    }
}
