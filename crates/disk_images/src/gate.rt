//! The gate protocol: what stands after a closed gate isn't there until the gate is opened.

ghost use Rattle.std.specs.Prelude.{◌≡◌, ◌≤◌, ◌<◌, ◌+◌, ◌^◌, ℕ, [], ◌∷◌, ◌++◌, List, length, IsTrue, OnOk, IsErr};
ghost use Rattle.disk_images.specs.Crash.{Throughout, OnlyAt};
ghost use Rattle.disk_images.specs.OneFile.{Touches, IsDurableFile};
ghost use Rattle.disk_images.specs.Gate.{ClosedOrOpen};
ghost use Rattle.disk_images.specs.Calls.{HasCause};

use crate::{Disk, Failed, Name, write_durably};
use log_model::OPEN_GATE;

/// Opens a closed gate, after which these bytes are durable.
pub fn open_gate<D: Disk>(disk: &mut D, name: Name, gate: u64) -> Result<(), Failed>
    requires { IsTrue D.told
        → ∥ ((front : List ℕ) × (closed : ℕ) × (behind : List ℕ) × IsDurableFile (D.view disk.old) name (front ++ closed ∷ behind)
        × (gate ≡ length front)) ∥₁ }

    ensures opened { IsTrue D.told → (front behind : List ℕ) (closed : ℕ) → IsDurableFile (D.view disk.old) name (front ++ closed ∷ behind)
        → gate ≡ length front → OnOk result (IsDurableFile (D.view disk.new) name (front ++ OPEN_GATE ∷ behind)) }
    ensures any_moment { IsTrue D.told → (front behind : List ℕ) (closed : ℕ)
        → IsDurableFile (D.view disk.old) name (front ++ closed ∷ behind) → gate ≡ length front
        → Throughout (OnlyAt name (ClosedOrOpen front behind) (D.view disk.old)) 2 (D.view disk.old) (D.view disk.new) }
    ensures touches { IsTrue D.told → Touches name (D.view disk.old) (D.view disk.new) }
    ensures cause { HasCause (D.faults disk.old) (D.faults disk.new) (IsErr result) }
{
    write_durably(disk, name, gate, &[OPEN_GATE])
}

/// Writes after a closed gate at the end of a file, and opens it. It makes four disk calls.
pub fn commit_behind_gate<D: Disk>(
    disk: &mut D,
    name: Name,
    gate: u64,
    bytes: &[u8],
) -> Result<(), Failed>
    requires closed { IsTrue D.told → ∥ ((front : List ℕ) × IsDurableFile (D.view disk.old) name (front ++ 0 ∷ []) × (gate ≡ length front)) ∥₁ }
    requires small { gate < 2 ^ 63 }
    requires some { 0 < length bytes.now }

    ensures fits { OnOk result (gate + 1 + length bytes.now < 2 ^ 63) }
    ensures committed { IsTrue D.told → (front : List ℕ) → IsDurableFile (D.view disk.old) name (front ++ 0 ∷ []) → gate ≡ length front
        → OnOk result (IsDurableFile (D.view disk.new) name (front ++ OPEN_GATE ∷ bytes.now)) }
    ensures any_moment { IsTrue D.told → (front : List ℕ) → IsDurableFile (D.view disk.old) name (front ++ 0 ∷ []) → gate ≡ length front
        → Throughout (OnlyAt name (ClosedOrOpen front bytes.now) (D.view disk.old)) 4 (D.view disk.old) (D.view disk.new) }
    ensures touches { IsTrue D.told → Touches name (D.view disk.old) (D.view disk.new) }
    ensures cause { HasCause (D.faults disk.old) (D.faults disk.new) (IsErr result) }
{
    write_durably(disk, name, gate + 1, bytes)?;
    open_gate(disk, name, gate)
}
