//! The calls of the operating system that a folder of files needs.

ghost use Rattle.std.specs.Prelude.{◌≡◌, ◌<◌, ◌≤◌, ◌+◌, ◌-◌, ◌++◌, ◌^◌, ℕ, List, length, take, drop, min, Bool, true, Some, is_some, IsTrue, IsErr, OnOk, OnErr, IfOk};
ghost use Rattle.std.specs.Option.{option_map};
ghost use Rattle.std.specs.FinMap.{keys, get};
ghost use Rattle.log_model.specs.Files.{IsName};
ghost use Rattle.disk_images.specs.Calls.{HasCause};
ghost use Rattle.folder_system.specs.System.{SystemView, IsTrueSystem};
ghost use Rattle.folder_system.specs.Calls.{Looks, Creates, Writes, SyncsFile, Renames, Unlinks, SyncsFolder, CreatesPart, PutsInPlace, Ticks};

use disk_images::Name;
use std::alloc::Global;
use std::io;

/// One folder of files, which nobody else changes. Where it isn't there it has no file, and is made with its first one. Each call
/// has its meaning on a system that tells what it holds; that Linux keeps it is a premise. A call that answers an error has raised
/// the count of faults.
///
/// Links to files in other folders, and hard links, are outside the model.
pub trait System {
    /// An open file.
    type Handle: Drop;

    /// Whether it tells what it holds. The real system doesn't.
    ghost told: { Bool };

    ghost view: { Self → SystemView };

    /// How often a call has failed. It never falls, and stands at the end of its type.
    ghost faults: { Self → ℕ };

    ghost inode: { Self.Handle → ℕ };

    /// The names of the files, in order.
    fn names(&mut self, alloc: Global) -> io::Result<Vec<Name>>
        ensures names { IsTrue told → IfOk result (λ names. names.items ≡ keys (view self.old).folder) }
        ensures looks { IsTrue told → Looks (view self.old) (view self.new) }
        ensures cause { HasCause (faults self.old) (faults self.new) (IsErr result) };

    /// stat: the length of a file in bytes, or None where the name isn't there. Of a doubtful file nothing is said.
    fn length(&mut self, name: Name) -> io::Result<Option<u64>>
        ensures length { IsTrue told → ((i : ℕ) → get (view self.old).folder name ≡ Some i → ¬ (view self.old).doubtful i)
            → IfOk result (λ n. n ≡ option_map (λ i. length ((view self.old).bytes i)) (get (view self.old).folder name)) }
        ensures looks { IsTrue told → Looks (view self.old) (view self.new) }
        ensures cause { HasCause (faults self.old) (faults self.new) (IsErr result) };

    /// stat: whether the file is one that hwal makes sure of once, and writes no more: an old log, which was synced under its former
    /// name, or a store that may only be read, as its copy is once it is synced. That no write or fsync of such a file has failed
    /// is a premise on the programs that wrote the folder. A system may always answer no.
    fn is_sealed(&mut self, name: Name) -> io::Result<bool>
        ensures sealed { IsTrue told
            → IfOk result (λ sealed. IsTrue sealed → (i : ℕ) → get (view self.old).folder name ≡ Some i → ¬ (view self.old).doubtful i) }
        ensures looks { IsTrue told → Looks (view self.old) (view self.new) }
        ensures cause { HasCause (faults self.old) (faults self.new) (IsErr result) };

    /// open of a file that is there, to read it or to read and write.
    fn open(&mut self, name: Name, for_writing: bool) -> io::Result<Self::Handle>
        ensures opened { IsTrue told → IfOk result (λ file. get (view self.old).folder name ≡ Some (inode file)) }
        ensures looks { IsTrue told → Looks (view self.old) (view self.new) }
        ensures cause { HasCause (faults self.old) (faults self.new) (IsErr result) };

    /// open with O_CREAT and O_EXCL, to read and write. Where the folder isn't there mkdir comes first.
    fn create(&mut self, name: Name) -> io::Result<Self::Handle>
        requires { IsName name }
        ensures creates { IsTrue told → Creates inode name result (view self.old) (view self.new) }
        ensures cause { HasCause (faults self.old) (faults self.new) (IsErr result) };

    /// pread, until the slice is full or the file ends. Of a doubtful file nothing is said.
    fn read(&mut self, file: &Self::Handle, at: u64, into: &mut [u8]) -> io::Result<usize>
        ensures within { IfOk result (λ n. n ≤ length into.old) }
        ensures count { IsTrue told → ¬ (view self.old).doubtful (inode file.now)
            → IfOk result (λ n. n ≡ min (length into.old) (length ((view self.old).bytes (inode file.now)) - at)) }
        ensures bytes { IsTrue told → ¬ (view self.old).doubtful (inode file.now)
            → IfOk result (λ n. into.new ≡ take n (drop at ((view self.old).bytes (inode file.now))) ++ drop n into.old) }
        ensures looks { IsTrue told → Looks (view self.old) (view self.new) }
        ensures cause { HasCause (faults self.old) (faults self.new) (IsErr result) };

    /// pwrite, until all is written. One that would end past 2^63-1 fails.
    fn write(&mut self, file: &Self::Handle, at: u64, bytes: &[u8]) -> io::Result<()>
        requires { IsTrue told → at ≤ length ((view self.old).bytes (inode file.now)) }
        ensures fits { OnOk result (at + length bytes.now < 2 ^ 63) }
        ensures writes { IsTrue told → Writes (inode file.now) at bytes.now result (view self.old) (view self.new) }
        ensures cause { HasCause (faults self.old) (faults self.new) (IsErr result) };

    /// fsync of a file.
    fn sync(&mut self, file: &Self::Handle) -> io::Result<()>
        ensures syncs { IsTrue told → SyncsFile (inode file.now) result (view self.old) (view self.new) }
        ensures cause { HasCause (faults self.old) (faults self.new) (IsErr result) };

    /// rename to a name that isn't there.
    fn rename(&mut self, from: Name, to: Name) -> io::Result<()>
        requires { IsName to }
        ensures renames { IsTrue told → Renames from to result (view self.old) (view self.new) }
        ensures cause { HasCause (faults self.old) (faults self.new) (IsErr result) };

    /// unlink
    fn unlink(&mut self, name: Name) -> io::Result<()>
        ensures unlinks { IsTrue told → Unlinks name result (view self.old) (view self.new) }
        ensures cause { HasCause (faults self.old) (faults self.new) (IsErr result) };

    /// fsync of the folder. The first one syncs the folder around it too.
    fn sync_folder(&mut self) -> io::Result<()>
        ensures syncs { IsTrue told → SyncsFolder result (view self.old) (view self.new) }
        ensures cause { HasCause (faults self.old) (faults self.new) (IsErr result) };

    /// Begins a copy of a file that is there: unlink of NAME.part, if that is there, and open of it with O_CREAT and O_EXCL.
    fn create_part(&mut self, name: Name) -> io::Result<Self::Handle>
        requires { IsTrue told → is_some (get (view self.old).folder name) ≡ true }
        ensures creates { IsTrue told → CreatesPart inode name result (view self.old) (view self.new) }
        ensures cause { HasCause (faults self.old) (faults self.new) (IsErr result) };

    /// fchown and fchmod: gives a copy the owner and the rights of the file. A copy of a store may only be read from then on.
    fn copy_access(&mut self, name: Name, from: &Self::Handle, to: &Self::Handle) -> io::Result<()>
        ensures looks { IsTrue told → Looks (view self.old) (view self.new) }
        ensures cause { HasCause (faults self.old) (faults self.new) (IsErr result) };

    /// rename of NAME.part over NAME, which is there.
    fn put_in_place(&mut self, name: Name) -> io::Result<()>
        requires { IsTrue told → is_some (get (view self.old).folder name) ≡ true }
        ensures puts { IsTrue told → PutsInPlace name result (view self.old) (view self.new) }
        ensures cause { HasCause (faults self.old) (faults self.new) (IsErr result) };

    /// Counts a new moment, and does nothing else. It fails where no further moment can be counted.
    fn tick(&mut self) -> io::Result<()>
        ensures ticks { IsTrue told → OnOk result (Ticks (view self.old) (view self.new)) }
        ensures failed { IsTrue told → OnErr result (Looks (view self.old) (view self.new)) }
        ensures cause { HasCause (faults self.old) (faults self.new) (IsErr result) };

    /// Says on standard error which call failed, on this file or, without a name, on the folder.
    fn report(&self, call: &str, name: Option<Name>, cause: &io::Error);

    ghost is_true: { (system : Self) → IsTrue told → IsTrueSystem (view system) };
}
