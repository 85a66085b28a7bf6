//! Logs become old logs.

ghost use Rattle.std.specs.Prelude.{◌≡◌, ◌<◌, ℕ, Contains, length, IsTrue, OnOk, IsErr};
ghost use Rattle.log_model.specs.declared.name.Name.{Name as TheName};
ghost use Rattle.log_model.specs.Files.{Files, IsAbsent, content};
ghost use Rattle.disk_images.specs.Crash.{Throughout};
ghost use Rattle.disk_images.specs.Calls.{HasCause};
ghost use Rattle.recovery_laws.specs.Alike.{AllAlike};
ghost use Rattle.wal_split.specs.Held.{IsHeld};
ghost use Rattle.wal_split.specs.Logs.{AreFree, AreRising, LogsKept, IsOther, log_name, old_name};

use disk_images::{Disk, Failed, Name, NameKind};

/// Renames these logs, whose numbers rise, to old logs.
pub fn rename_logs<D: Disk>(disk: &mut D, logs: &[u64]) -> Result<(), Failed>
    requires free { IsTrue D.told → ∥ AreFree (D.view disk.old) logs.now ∥₁ }
    requires rising { IsTrue D.told → AreRising logs.now }

    ensures any_moment { IsTrue D.told → (base : Files) → IsHeld base (D.view disk.old) → LogsKept (D.view disk.old).files logs.now
        → Throughout (AllAlike base) (length logs.now) (D.view disk.old) (D.view disk.new) }
    ensures held { IsTrue D.told → (base : Files) → IsHeld base (D.view disk.old) → LogsKept (D.view disk.old).files logs.now
        → OnOk result (IsHeld base (D.view disk.new)) }
    ensures gone { IsTrue D.told → OnOk result ((n : ℕ) → Contains logs.now n → IsAbsent (D.view disk.new).files (log_name n)) }
    ensures moved { IsTrue D.told → OnOk result ((n : ℕ) → Contains logs.now n
        → content (D.view disk.new).files (old_name n) ≡ content (D.view disk.old).files (log_name n)) }
    ensures others { IsTrue D.told → OnOk result ((m : TheName) → IsOther logs.now m → content (D.view disk.new).files m ≡ content (D.view disk.old).files m) }
    ensures cause { HasCause (D.faults disk.old) (D.faults disk.new) (IsErr result) }
{
    for number in logs {
        let log = Name {
            kind: NameKind::Log,
            region: 0,
            number: *number,
        };
        let old = Name {
            kind: NameKind::Old,
            region: 0,
            number: *number,
        };
        disk.rename(log, old)?;
    }
    Ok(())
}
