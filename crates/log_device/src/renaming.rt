//! The steps that take closed logs away.

ghost use Rattle.std.specs.Prelude.{◌≡◌, ℕ, List, length, Contains, IsTrue, OnOk, IsErr};
ghost use Rattle.log_model.specs.Recovered.{IsWhollyFlushed};
ghost use Rattle.disk_images.specs.Calls.{HasCause};
ghost use Rattle.log_file.specs.Open.{OpenLog};
ghost use Rattle.log_ledger.specs.History.{ClosedLog, History, archived_in, with_logs};
ghost use Rattle.log_ledger.specs.Counted.{IsCounted, LogsLeft};
ghost use Rattle.log_device.specs.Keeps.{Keeps, Renames};

use disk_images::{Disk, Failed, Name, NameKind, rename_durable};
use log_ledger::Ledger;

/// Renames each closed log that is wholly flushed, the oldest first. It looks at each closed file of the ledger once, makes
/// a disk call for each that goes, and takes no memory.
pub(crate) fn rename_flushed<D: Disk>(disk: &mut D, ledger: &Ledger) -> Result<(), Failed>
    requires { IsTrue D.told → ∥ ((log : OpenLog) × (h : History) × Keeps log (D.view disk.old) h ledger.now.next_store
        × IsCounted ledger.now h) ∥₁ }

    ensures renames { IsTrue D.told → (log : OpenLog) (h : History) → Keeps log (D.view disk.old) h ledger.now.next_store
        → IsCounted ledger.now h
        → Renames log h.kept h.current ledger.now.next_store (length h.logs) (D.view disk.old) (D.view disk.new) }
    ensures kept { IsTrue D.told → (log : OpenLog) (h : History) → Keeps log (D.view disk.old) h ledger.now.next_store
        → IsCounted ledger.now h → OnOk result ((left : List ClosedLog) × LogsLeft h left
        × Keeps log (D.view disk.new) (with_logs h left) ledger.now.next_store) }
    ensures cause { HasCause (D.faults disk.old) (D.faults disk.new) (IsErr result) }
{
    let mut above = 0;
    while let Some(file) = ledger.first_to_go(above) {
        rename_log(disk, file)?;
        above = file;
    }
    Ok(())
}

/// Renames a closed log from Log to Old. It makes one disk call, after which no settle is needed: where a crash brings
/// the log back, its entries are flushed.
fn rename_log<D: Disk>(disk: &mut D, number: u64) -> Result<(), Failed>
    requires { IsTrue D.told → ∥ ((log : OpenLog) × (h : History) × (ns : List ℕ) × (c : ClosedLog)
        × Keeps log (D.view disk.old) h ns × Contains h.logs c × (c.number ≡ number)) ∥₁ }

    ensures renames { IsTrue D.told → (log : OpenLog) (h : History) (ns : List ℕ) (c : ClosedLog)
        → Keeps log (D.view disk.old) h ns → Contains h.logs c → c.number ≡ number
        → IsWhollyFlushed h.kept.flushed c.entries
        → Renames log h.kept h.current ns 1 (D.view disk.old) (D.view disk.new) }
    ensures kept { IsTrue D.told → (log : OpenLog) (h : History) (ns : List ℕ) (c : ClosedLog)
        → Keeps log (D.view disk.old) h ns → Contains h.logs c → c.number ≡ number
        → IsWhollyFlushed h.kept.flushed c.entries → OnOk result (Keeps log (D.view disk.new) (archived_in h number) ns) }
    ensures cause { HasCause (D.faults disk.old) (D.faults disk.new) (IsErr result) }
{
    let log = Name {
        kind: NameKind::Log,
        region: 0,
        number,
    };
    let old = Name {
        kind: NameKind::Old,
        region: 0,
        number,
    };
    rename_durable(disk, log, old)
}
