//! A disk of named files.

ghost use Rattle.std.specs.Prelude.{◌≡◌, ◌<◌, ◌≤◌, ◌+◌, ◌-◌, ◌++◌, ℕ, List, length, take, drop, min, Bool, IsTrue, ◌^◌, OnOk, IfOk, IsErr, IsErrOf};
ghost use Rattle.std.specs.FinMap.{keys};
ghost use Rattle.log_model.specs.Files.{content, IsAbsent, Reads, IsName, size_of};
ghost use Rattle.disk_images.specs.declared.disk.NamesError.TheVariants as names_errors;
ghost use Rattle.disk_images.specs.Crash.{DiskView};
ghost use Rattle.disk_images.specs.Calls.{HasCause, Looks, Creates, Writes, Syncs, Renames, Removes, Settles, IsTrueDisk};

use crate::{Name, NameList};
use std::alloc::Global;

/// A call of a disk, source or sink failed.
#[derive(Clone, Copy, Debug, PartialEq, Eq)]
pub struct Failed;

#[derive(Clone, Copy, Debug, PartialEq, Eq)]
pub enum NamesError {
    Failed,
    Memory,
}

impl From<Failed> for NamesError {
    ghost from_gives = { λ _ e. e ≡ names_errors.Failed };

    fn from(_e: Failed) -> NamesError {
        NamesError::Failed
    }
}

/// A disk of files with names. Each call has its meaning on a disk that tells what it holds; that a real folder meets
/// it is a premise. A call answers Failed only where the count of faults rose in it. After Failed the store is to be
/// opened again: of what the call did, a crash may leave all, a part or nothing.
pub trait Disk {
    /// Whether it tells what it holds. A real folder doesn't.
    ghost told: { Bool };

    /// What it tells: files, names that are gone, clock and crash images.
    ghost view: { Self → DiskView };

    /// How often it has failed. It never falls, and stands at the end of its type.
    ghost faults: { Self → ℕ };

    /// All names, each once, by kind, region and number.
    fn names(&mut self, alloc: Global) -> Result<NameList, NamesError>
        ensures names { IsTrue told → IfOk result (λ names. names ≡ keys (view self.old).files) }
        ensures looks { IsTrue told → Looks (view self.old) (view self.new) }
        ensures cause { HasCause (faults self.old) (faults self.new) (IsErrOf result NamesError.Failed) };

    /// The length of a file in bytes, or None where the name isn't there.
    fn size(&mut self, name: Name) -> Result<Option<u64>, Failed>
        ensures size { IsTrue told → IfOk result (λ size. size ≡ size_of (content (view self.old).files name)) }
        ensures looks { IsTrue told → Looks (view self.old) (view self.new) }
        ensures cause { HasCause (faults self.old) (faults self.new) (IsErr result) };

    /// Reads the bytes from an offset on, as many as fit the slice and are left. The file is there, and the offset is at
    /// most its size.
    fn read(&mut self, name: Name, at: u64, into: &mut [u8]) -> Result<usize, Failed>
        requires { IsTrue told → ∥ ((c : List ℕ) × Reads (view self.old).files name c × (at ≤ length c)) ∥₁ }
        ensures within { IfOk result (λ n. n ≤ length into.old) }
        ensures count { IsTrue told → (c : List ℕ) → Reads (view self.old).files name c → IfOk result (λ n. n ≡ min (length into.old) (length c - at)) }
        ensures bytes { IsTrue told → (c : List ℕ) → Reads (view self.old).files name c → IfOk result (λ n. into.new ≡ take n (drop at c) ++ drop n into.old) }
        ensures looks { IsTrue told → Looks (view self.old) (view self.new) }
        ensures cause { HasCause (faults self.old) (faults self.new) (IsErr result) };

    /// Makes an empty file. The name is neither there nor gone (removed or renamed away since the last settle).
    fn create(&mut self, name: Name) -> Result<(), Failed>
        requires absent { IsTrue told → IsAbsent (view self.old).files name × (¬ (view self.old).gone name) }
        requires named { IsName name }
        ensures creates { IsTrue told → Creates name result (view self.old) (view self.new) }
        ensures cause { HasCause (faults self.old) (faults self.new) (IsErr result) };

    /// Writes bytes over what is there, and past the end. The file is there, the offset is at most its size, and there
    /// is at least one byte. A write past 2^63-1 fails.
    fn write_at(&mut self, name: Name, at: u64, bytes: &[u8]) -> Result<(), Failed>
        requires there { IsTrue told → ∥ ((c : List ℕ) × Reads (view self.old).files name c × (at ≤ length c)) ∥₁ }
        requires some { 0 < length bytes.now }
        ensures fits { OnOk result (at + length bytes.now < 2 ^ 63) }
        ensures writes { IsTrue told → Writes name at bytes.now result (view self.old) (view self.new) }
        ensures cause { HasCause (faults self.old) (faults self.new) (IsErr result) };

    /// Makes the file durable: content, existence and name. The file is there.
    fn sync(&mut self, name: Name) -> Result<(), Failed>
        requires { IsTrue told → ∥ ((c : List ℕ) × Reads (view self.old).files name c) ∥₁ }
        ensures syncs { IsTrue told → Syncs name result (view self.old) (view self.new) }
        ensures cause { HasCause (faults self.old) (faults self.new) (IsErr result) };

    /// Gives a file that is there another name, which is neither there nor gone.
    fn rename(&mut self, from: Name, to: Name) -> Result<(), Failed>
        requires from { IsTrue told → ∥ ((c : List ℕ) × Reads (view self.old).files from c) ∥₁ }
        requires to { IsTrue told → IsAbsent (view self.old).files to × (¬ (view self.old).gone to) }
        requires named { IsName to }
        ensures renames { IsTrue told → Renames from to result (view self.old) (view self.new) }
        ensures cause { HasCause (faults self.old) (faults self.new) (IsErr result) };

    /// Removes a file that is there.
    fn remove(&mut self, name: Name) -> Result<(), Failed>
        requires { IsTrue told → ∥ ((c : List ℕ) × Reads (view self.old).files name c) ∥₁ }
        ensures removes { IsTrue told → Removes name result (view self.old) (view self.new) }
        ensures cause { HasCause (faults self.old) (faults self.new) (IsErr result) };

    /// Makes each create, rename and remove so far durable: names, not content.
    fn settle(&mut self) -> Result<(), Failed>
        ensures settles { IsTrue told → Settles result (view self.old) (view self.new) }
        ensures cause { HasCause (faults self.old) (faults self.new) (IsErr result) };

    ghost is_true: { (disk : Self) → IsTrue told → IsTrueDisk (view disk) };
}
