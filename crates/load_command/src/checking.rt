//! Whether a store is empty.

ghost use Rattle.std.specs.Prelude.{◌≡◌, [], IsTrue, OnOk, IfErr, IsErrOf};
ghost use Rattle.std.specs.FinMap.{keys};
ghost use Rattle.disk_images.specs.Calls.{Looks, HasCause};
ghost use Rattle.command_base.specs.Status.{IsNotEmpty};
ghost use Rattle.load_command.specs.Statuses.{IsStoreRefusal};

use command_base::Status;
use disk_images::{Disk, NamesError};
use std::alloc::Global;

/// Whether the disk has no file: the refusal names the first one.
pub fn check_empty<D: Disk>(alloc: Global, disk: &mut D) -> Result<(), Status>
    ensures empty { IsTrue D.told → OnOk result (keys (D.view disk.old).files ≡ []) }
    ensures not_empty { IsTrue D.told → IfErr result (λ status. IsNotEmpty status (D.view disk.old).files) }
    ensures refused { IfErr result IsStoreRefusal }
    ensures looks { IsTrue D.told → Looks (D.view disk.old) (D.view disk.new) }
    ensures cause { HasCause (D.faults disk.old) (D.faults disk.new) (IsErrOf result Status.DiskFault) }
{
    match disk.names(alloc) {
        Ok(names) => match names.as_slice() {
            [] => Ok(()),
            [name, ..] => Err(Status::NotEmpty { name: *name }),
        },
        Err(NamesError::Failed) => Err(Status::DiskFault),
        Err(NamesError::Memory) => Err(Status::Memory),
    }
}
