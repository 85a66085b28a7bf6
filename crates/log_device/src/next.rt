//! The step from one log file to the next.

ghost use Rattle.std.specs.Prelude.{◌≡◌, ◌<◌, ◌+◌, ℕ, List, [], IsTrue, IfOk, IsErr};
ghost use Rattle.disk_images.specs.Crash.{Throughout};
ghost use Rattle.disk_images.specs.Calls.{HasCause};
ghost use Rattle.chronicle_model.specs.Growth.{AppendsTo};
ghost use Rattle.log_ledger.specs.History.{History, closed_in};
ghost use Rattle.log_device.specs.Bears.{Bears};
ghost use Rattle.log_device.specs.Keeps.{Keeps, Between, IsInOrder, log_name};

use disk_images::{Disk, Name};
use log_file::{DiskFault, LogFile, Stage};

/// Ends a log in which nothing is staged, and begins the next one with this stage. It makes seven disk calls.
pub(crate) fn next_log<D: Disk>(
    disk: &mut D,
    log: LogFile,
    next: Name,
    stage: Stage,
) -> Result<LogFile, DiskFault>
    requires kept { IsTrue D.told → ∥ ((h : History) × (ns : List ℕ) × Keeps log (D.view disk.old) h ns) ∥₁ }
    requires idle { log.staged ≡ 0 }
    requires some { 0 < log.entries }
    requires next { next ≡ log_name (log.name.number + 1) }

    // Each image is like the files before, with the old log as the last one, or with the next one, which has no entry.
    ensures any_moment { IsTrue D.told → (h : History) (ns : List ℕ) → Keeps log (D.view disk.old) h ns
        → Throughout (Between h.kept log.name h.current h.kept (log_name (log.name.number + 1)) []) 7 (D.view disk.old) (D.view disk.new) }
    ensures names { IsTrue D.told → (h : History) (ns : List ℕ) → Keeps log (D.view disk.old) h ns
        → Throughout (Bears h.kept.base ns (log.name.number + 1)) 7 (D.view disk.old) (D.view disk.new) }
    ensures in_order { IsTrue D.told → (h : History) (ns : List ℕ) → Keeps log (D.view disk.old) h ns
        → Throughout (IsInOrder log.name (log_name (log.name.number + 1)) h.current) 7 (D.view disk.old) (D.view disk.new) }
    ensures appends { IsTrue D.told → (h : History) (ns : List ℕ) → Keeps log (D.view disk.old) h ns
        → AppendsTo log.name.number (D.view disk.old).files (D.view disk.new).files }
    ensures kept { IsTrue D.told → (h : History) (ns : List ℕ) → Keeps log (D.view disk.old) h ns → h.kept.staged ≡ []
        → IfOk result (λ now. Keeps now (D.view disk.new) (closed_in h log.name.number) ns) }
    ensures begun { IfOk result
        (λ now. (now.name ≡ log_name (log.name.number + 1)) × (now.entries ≡ 0) × (now.staged ≡ 0)) }
    ensures cause { HasCause (D.faults disk.old) (D.faults disk.new) (IsErr result) }
{
    // The end frame is durable before the next file's first byte is written, so no image has a byte of the next file and
    // lacks an entry of this one.
    log.finish(disk)?;
    LogFile::begin_with(disk, next, stage)
}
