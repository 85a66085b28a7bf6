//! How a fault is counted and reported.

ghost use Rattle.std.specs.Prelude.{◌≤◌};
ghost use Rattle.disk_images.specs.Calls.{Rose};

use crate::System;
use disk_images::{Failed, Name};
use std::io::{self, ErrorKind};

/// Counts a fault of a call that wasn't made, since an earlier one had failed.
pub(crate) fn refuse(faults: &mut u64) -> Failed
    ensures rose { Rose faults.old faults.new }
    ensures later { faults.old ≤ faults.new }
{
    *faults = faults.saturating_add(1);
    Failed
}

/// Counts a fault and reports it: this call failed, on this file or, without a name, on the folder.
pub(crate) fn fail<S: System>(
    system: &S,
    faults: &mut u64,
    call: &str,
    name: Option<Name>,
    cause: &io::Error,
) -> Failed
    ensures rose { Rose faults.old faults.new }
    ensures later { faults.old ≤ faults.new }
{
    system.report(call, name, cause);
    refuse(faults)
}

/// The same of a call that would write, on a disk that only reads. What comes after a fault was reported with it.
pub(crate) fn only_reads<S: System>(
    system: &S,
    faults: &mut u64,
    was_sound: bool,
    call: &str,
    name: Option<Name>,
) -> Failed
    ensures rose { Rose faults.old faults.new }
    ensures later { faults.old ≤ faults.new }
{
    if was_sound {
        let why = "the store is open for reading";
        system.report(
            call,
            name,
            &io::Error::new(ErrorKind::PermissionDenied, why),
        );
    }
    refuse(faults)
}
