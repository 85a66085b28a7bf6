//! Sources and sinks of bytes.

ghost use Rattle.std.specs.Prelude.{◌≡◌, ◌<◌, ◌≤◌, ◌++◌, ℕ, List, [], length, take, drop, Bool, IsTrue, IfOk, OnErr, IsErr};
ghost use Rattle.disk_images.specs.Calls.{HasCause};

use crate::Failed;

pub trait Source {
    ghost told: { Bool };

    /// The bytes that are left.
    ghost left: { Self → List ℕ };

    ghost faults: { Self → ℕ };

    /// Reads some bytes into the front of a slice: 0 of them, where the slice isn't empty, exactly at the end of input.
    fn read(&mut self, into: &mut [u8]) -> Result<usize, Failed>
        ensures within { IfOk result (λ n. n ≤ length into.old) }
        ensures bytes { IsTrue told
            → IfOk result (λ n. (n ≤ length (left self.old)) × (into.new ≡ take n (left self.old) ++ drop n into.old)
            × (left self.new ≡ drop n (left self.old))) }
        ensures end { IsTrue told → 0 < length into.old → IfOk result (λ n. n ≡ 0 → left self.old ≡ []) }
        ensures failed { IsTrue told → OnErr result (left self.new ≡ left self.old) }
        ensures cause { HasCause (faults self.old) (faults self.new) (IsErr result) };
}

pub trait Sink {
    ghost told: { Bool };

    /// The bytes that it took.
    ghost taken: { Self → List ℕ };

    ghost faults: { Self → ℕ };

    /// Takes some bytes from the front of a piece, at least one of a piece that isn't empty.
    fn write(&mut self, bytes: &[u8]) -> Result<usize, Failed>
        ensures within { IfOk result (λ n. n ≤ length bytes.now) }
        ensures some { 0 < length bytes.now → IfOk result (λ n. 0 < n) }
        ensures took { IsTrue told → IfOk result (λ n. taken self.new ≡ taken self.old ++ take n bytes.now) }
        ensures failed { IsTrue told → OnErr result (taken self.new ≡ taken self.old) }
        ensures cause { HasCause (faults self.old) (faults self.new) (IsErr result) };
}
