//! A source that never fails, and a sink that doesn't fail while there is room.

ghost use Rattle.std.specs.Prelude.{◌≡◌, ◌<◌, ◌≤◌, ◌+◌, ◌++◌, [], length, take, IfOk, OnErr, IsOk, IsErr, vec_len};
ghost use Rattle.disk_images.specs.Calls.{HasCause};

use crate::history::read_from;
use disk_images::{Failed, Sink, Source};
use kv_cell::NoMemory;
use std::alloc::Global;

const PIECE: usize = 64;

/// A source of bytes in memory that never fails.
pub struct SafeSource {
    bytes: Vec<u8>,
    read: usize,
    ghost within: { read ≤ vec_len bytes },
}

impl Drop for SafeSource {
    fn drop(self) {
        let SafeSource { bytes: _, read: _ } = self;
    }
}

impl SafeSource {
    ghost use Rattle.disk_fakes.specs.Streams.{safe_left};

    pub fn new(alloc: Global, bytes: &[u8]) -> Result<SafeSource, NoMemory>
        ensures { IfOk result (λ source. safe_left source ≡ bytes.now) }
    {
        Ok(SafeSource {
            bytes: bytes.to_vec(alloc)?,
            read: 0,
        })
    }
}

impl Source for SafeSource {
    ghost use Rattle.std.specs.Prelude.{true};
    ghost use Rattle.disk_fakes.specs.Streams.{safe_left};

    ghost told = { true };

    ghost left = { safe_left };

    ghost faults = { λ source. 0 };

    fn read(&mut self, into: &mut [u8]) -> Result<usize, Failed> {
        let n = read_from(&self.bytes, self.read, into);
        self.read += n;
        Ok(n)
    }
}

/// A sink in memory with room for so many bytes. It takes the first 64 bytes of a longer piece, and the whole of
/// another, and keeps what it took. It takes no memory once it is made, and fails exactly where there is no room.
pub struct SafeSink {
    taken: Vec<u8>,
    faults: u64,
}

impl Drop for SafeSink {
    fn drop(self) {
        let SafeSink {
            taken: _,
            faults: _,
        } = self;
    }
}

impl SafeSink {
    ghost use Rattle.disk_fakes.specs.Streams.{safe_taken, safe_room, safe_faults};

    pub fn new(alloc: Global, capacity: usize) -> Result<SafeSink, NoMemory>
        ensures taken { IfOk result (λ sink. safe_taken sink ≡ []) }
        ensures room { IfOk result (λ sink. safe_room sink ≡ capacity) }
        ensures faults { IfOk result (λ sink. safe_faults sink ≡ 0) }
    {
        Ok(SafeSink {
            taken: Vec::with_capacity(alloc, capacity)?,
            faults: 0,
        })
    }

    /// What it took.
    pub fn as_slice(&self) -> &[u8]
        ensures { result.now ≡ safe_taken self.now }
    {
        &self.taken
    }
}

impl Sink for SafeSink {
    ghost use Rattle.std.specs.Prelude.{true};
    ghost use Rattle.disk_fakes.specs.Streams.{safe_taken, safe_room, safe_faults};

    ghost told = { true };

    ghost taken = { safe_taken };

    ghost faults = { safe_faults };

    /// Takes some bytes. The count of faults stays where the piece fits.
    fn write(&mut self, bytes: &[u8]) -> Result<usize, Failed>
        ensures within { IfOk result (λ n. n ≤ length bytes.now) }
        ensures some { 0 < length bytes.now → IfOk result (λ n. 0 < n) }
        ensures took { IfOk result (λ n. safe_taken self.new ≡ safe_taken self.old ++ take n bytes.now) }
        ensures failed { OnErr result (safe_taken self.new ≡ safe_taken self.old) }
        ensures cause { HasCause (safe_faults self.old) (safe_faults self.new) (IsErr result) }
        ensures fits { length bytes.now ≤ safe_room self.old → IsOk result }
        ensures room { IfOk result (λ n. safe_room self.old ≤ safe_room self.new + n) }
        ensures calm { length bytes.now ≤ safe_room self.old → safe_faults self.new ≡ safe_faults self.old }
    {
        let n = bytes.len().min(PIECE);
        if self.taken.capacity() - self.taken.len() < n {
            self.faults = self.faults.saturating_add(1);
            return Err(Failed);
        }
        match self.taken.extend_from_slice(&bytes[..n]) {
            Ok(()) => Ok(n),
            Err(_) => unreachable!(),
        }
    }
}
