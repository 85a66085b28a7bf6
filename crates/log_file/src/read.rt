//! Reading a log file.

ghost use Rattle.std.specs.Prelude.{◌≡◌, ◌≢◌, ◌≤◌, ◌<◌, ◌+◌, ◌-◌, ◌^◌, ℕ, List, [], ◌++◌, length, take, drop, min, IsTrue, IfOk, OnOk, IsErrOf, vec_len};
ghost use Rattle.log_model.specs.LogText.{IsLogText, IsDamaged};
ghost use Rattle.log_model.specs.Files.{Reads, key_of};
ghost use Rattle.disk_images.specs.Calls.{HasCause};
ghost use Rattle.entry_frame.specs.Feed.{IsFed, IsDrained};
ghost use Rattle.file_base.specs.Looking.{OnlyLooks};
ghost use Rattle.file_base.specs.Refusal.{IfDamaged};

use crate::list::{EntryList, LogText};
use disk_images::{Disk, Name};
use entry_frame::{Entry, Feed, FileKey};
use file_base::ReadRefusal;
use kv_cell::NoMemory;
use std::alloc::Global;

/// How many bytes are read at once.
const PIECE: u64 = 65_536;

/// Files of so many bytes and more are refused as out of memory.
const TOO_LONG: u64 = 0x8000_0000_0000_0000;

/// Reads a file that is there, in pieces of 64 KiB, up to the size found first, or to the piece in which its text ends.
/// Memory is taken for its entries, one entry and one piece more. The disk reads as before.
pub fn read_log<D: Disk>(alloc: Global, disk: &mut D, name: Name) -> Result<LogText, ReadRefusal>
    requires { IsTrue D.told → ∥ ((c : List ℕ) × Reads (D.view disk.old).files name c) ∥₁ }

    // What is read stands there, and what is refused as damaged is damaged there.
    ensures text { IsTrue D.told → (c : List ℕ) → Reads (D.view disk.old).files name c
        → IfOk result (λ text. IsLogText (key_of name) c text.entries text.ended) }
    ensures damaged { IsTrue D.told → (c : List ℕ) → Reads (D.view disk.old).files name c → IfDamaged result (λ at. IsDamaged (key_of name) c at) }
    ensures looks { IsTrue D.told → (c : List ℕ) → Reads (D.view disk.old).files name c → OnlyLooks (length c + 1) (D.view disk.old) (D.view disk.new) }
    ensures cause { HasCause (D.faults disk.old) (D.faults disk.new) (IsErrOf result ReadRefusal.DiskFault) }
{
    let mut buffer = new_buffer(alloc)?;
    let size = disk.size(name)?.unwrap_or(0);
    if size >= TOO_LONG {
        return Err(ReadRefusal::Memory);
    }
    let mut reading = Reading::new(alloc, name);
    reading.read_pieces(alloc, disk, name, size, &mut buffer)?;
    let text = reading.finish(alloc)?;
    Ok(text)
}

fn new_buffer(alloc: Global) -> Result<Vec<u8>, NoMemory>
    ensures { IfOk result (λ buffer. vec_len buffer ≡ 65536) }
{
    Ok(vec![in alloc; 0; PIECE as usize]?)
}

/// A file that is read: what came of it so far, and the entries taken from that.
#[derive(Drop)]
struct Reading {
    feed: Feed,
    entries: Vec<Entry>,
}

impl Reading {
    fn new(alloc: Global, name: Name) -> Reading
        ensures key { result.feed.key ≡ key_of name }
        ensures fed { IsFed result.feed [] result.entries.items }
    {
        let file = FileKey {
            region: name.region,
            number: name.number,
        };
        Reading {
            feed: Feed::new(alloc, file),
            entries: Vec::new(alloc),
        }
    }

    /// Takes the entries that have come whole.
    fn take_whole(&mut self, alloc: Global) -> Result<(), ReadRefusal>
        ensures key { self.new.feed.key ≡ self.old.feed.key }
        ensures fed { (given : List ℕ) → IsFed self.old.feed given self.old.entries.items → OnOk result (IsFed self.new.feed given self.new.entries.items) }
        ensures drained { OnOk result (IsDrained self.new.feed) }
        ensures damaged { (given : List ℕ) → IsFed self.old.feed given self.old.entries.items
            → IfDamaged result (λ at. (more : List ℕ) → IsDamaged self.old.feed.key (given ++ more) at) }
        ensures no_fault { result ≢ Err ReadRefusal.DiskFault }
    {
        while let Some(entry) = self.feed.take(alloc)? {
            self.entries.push(entry)?;
        }
        Ok(())
    }

    /// Reads the next piece, and takes the entries that it makes whole. It gives the piece's length.
    fn read_piece<D: Disk>(
        &mut self,
        alloc: Global,
        disk: &mut D,
        name: Name,
        at: u64,
        into: &mut [u8],
    ) -> Result<usize, ReadRefusal>
        requires there { IsTrue D.told → ∥ ((c : List ℕ) × Reads (D.view disk.old).files name c × (at ≤ length c)) ∥₁ }
        requires fits { self.old.feed.at + length self.old.feed.unread + length into.old < 2 ^ 63 }

        ensures key { self.new.feed.key ≡ self.old.feed.key }
        ensures within { IfOk result (λ n. n ≤ length into.old) }
        ensures fed { (given : List ℕ) → IsFed self.old.feed given self.old.entries.items
            → IfOk result (λ n. IsFed self.new.feed (given ++ take n into.new) self.new.entries.items) }
        ensures count { IsTrue D.told → (c : List ℕ) → Reads (D.view disk.old).files name c → IfOk result (λ n. n ≡ min (length into.old) (length c - at)) }
        ensures bytes { IsTrue D.told → (c : List ℕ) → Reads (D.view disk.old).files name c → IfOk result (λ n. take n into.new ≡ take n (drop at c)) }
        ensures damaged { IsTrue D.told → (c : List ℕ) → Reads (D.view disk.old).files name c
            → IsFed self.old.feed (take at c) self.old.entries.items → IfDamaged result (λ place. IsDamaged self.old.feed.key c place) }
        ensures looks { IsTrue D.told → OnlyLooks 1 (D.view disk.old) (D.view disk.new) }
        ensures cause { HasCause (D.faults disk.old) (D.faults disk.new) (IsErrOf result ReadRefusal.DiskFault) }
    {
        let n = disk.read(name, at, into)?;
        self.feed.give(&into[..n])?;
        self.take_whole(alloc)?;
        Ok(n)
    }

    /// Reads a file of this size, of which nothing was read yet.
    fn read_pieces<D: Disk>(
        &mut self,
        alloc: Global,
        disk: &mut D,
        name: Name,
        size: u64,
        buffer: &mut [u8],
    ) -> Result<(), ReadRefusal>
        requires there { IsTrue D.told → ∥ ((c : List ℕ) × Reads (D.view disk.old).files name c) ∥₁ }
        requires size { IsTrue D.told → (c : List ℕ) → Reads (D.view disk.old).files name c → size ≡ length c }
        requires small { size < 2 ^ 63 }
        requires room { length buffer.old ≡ 65536 }
        requires fed { IsFed self.old.feed [] self.old.entries.items }

        ensures key { self.new.feed.key ≡ self.old.feed.key }
        ensures fed { IsTrue D.told → (c : List ℕ) → Reads (D.view disk.old).files name c → OnOk result (IsFed self.new.feed c self.new.entries.items) }
        ensures damaged { IsTrue D.told → (c : List ℕ) → Reads (D.view disk.old).files name c → IfDamaged result (λ at. IsDamaged self.old.feed.key c at) }
        ensures looks { IsTrue D.told → OnlyLooks size (D.view disk.old) (D.view disk.new) }
        ensures cause { HasCause (D.faults disk.old) (D.faults disk.new) (IsErrOf result ReadRefusal.DiskFault) }
    {
        let mut at = 0;
        while at < size {
            let want = (size - at).min(PIECE) as usize;
            let n = self.read_piece(alloc, disk, name, at, &mut buffer[..want])?;
            if n == 0 {
                break;
            }
            at += n as u64;
            // What stands after the text's end is no part of it, however much there is.
            if self.feed.has_ended() {
                break;
            }
        }
        Ok(())
    }

    /// The text that all that came is.
    fn finish(self, alloc: Global) -> Result<LogText, ReadRefusal>
        ensures text { (given : List ℕ) → IsFed self.feed given self.entries.items
            → IfOk result (λ text. IsLogText self.feed.key given text.entries text.ended) }
        ensures damaged { (given : List ℕ) → IsFed self.feed given self.entries.items → IfDamaged result (λ at. IsDamaged self.feed.key given at) }
        ensures no_fault { result ≢ Err ReadRefusal.DiskFault }
    {
        let mut reading = self;
        reading.take_whole(alloc)?;
        let ended = reading.feed.finish()?;
        Ok(LogText {
            entries: EntryList::of(reading.entries),
            ended,
        })
    }
}
