//! The frames of a batch, before they are written.

ghost use Rattle.std.specs.Prelude.{◌≡◌, ◌≤◌, ◌<◌, ◌+◌, ℕ, [], ◌∷◌, ◌++◌, List, length, IfOk, IsTrue, vec_len, vec_capacity, ◌↔◌};

use kv_cell::{NoMemory, put};
use log_model::{CLOSED_GATE, OPEN_GATE};
use std::alloc::Global;
use std::marker::Model;
use thiserror::Error;

/// The bytes of a stage.
pub const STAGE_BYTES: usize = 4_194_304;

/// The entry doesn't fit the stage.
#[derive(Clone, Copy, Debug, PartialEq, Eq, Error)]
#[error("the stage is full")]
pub struct StageFull;

/// Room for the bytes of one commit, seen as the bytes that stand in it.
#[derive(Debug, Drop)]
pub struct Stage {
    bytes: Vec<u8>,
}

impl Model for Stage {
    ghost use Rattle.std.specs.Prelude.{List, ℕ, ◌≤◌, vec_capacity, vec_len};

    ghost Value = { List ℕ };

    ghost view = { λ s. s.bytes.items };

    ghost invariant = { λ s. (4194304 ≤ vec_capacity s.bytes) × (vec_len s.bytes ≤ 4194304) };
}

impl Stage {
    /// An empty stage, with all the memory that it will need.
    pub fn new(alloc: Global) -> Result<Stage, NoMemory>
        ensures { IfOk result (λ stage. stage ≡ []) }
    {
        let mut bytes = Vec::new(alloc);
        bytes.reserve(STAGE_BYTES)?;
        Ok(Stage { bytes })
    }

    pub(crate) fn as_slice(&self) -> &[u8]
        ensures value { result.now ≡ self.now }
        ensures within { length self.now ≤ 4194304 }
    {
        self.bytes.as_slice()
    }

    /// Whether a frame of this length and one gate byte more would pass the stage's bytes.
    pub(crate) fn is_full_for(&self, len: usize) -> bool
        ensures { IsTrue result ↔ (4194304 < length self.now + len + 1) }
    {
        self.bytes.len() >= STAGE_BYTES || len >= STAGE_BYTES - self.bytes.len()
    }

    /// Adds a frame, for which there is room, after the last gate, which it opens, and a closed gate after it.
    pub(crate) fn add(&mut self, frame: &[u8])
        requires { length self.old + length frame.now + 1 ≤ 4194304 }
        ensures first { self.old ≡ [] → self.new ≡ frame.now ++ 0 ∷ [] }
        ensures next { (front : List ℕ) → self.old ≡ front ++ 0 ∷ [] → self.new ≡ front ++ OPEN_GATE ∷ (frame.now ++ 0 ∷ []) }
        ensures len { length self.new ≡ length self.old + length frame.now + 1 }
    {
        add_frame(&mut self.bytes, frame);
    }

    pub(crate) fn clear(&mut self)
        ensures { self.new ≡ [] }
    {
        self.bytes.clear();
    }
}

/// Adds a frame after bytes whose last one is a gate.
fn add_frame(bytes: &mut Vec<u8>, frame: &[u8])
    requires { vec_len bytes.old + length frame.now + 1 ≤ vec_capacity bytes.old }
    ensures first { bytes.old.items ≡ [] → bytes.new.items ≡ frame.now ++ 0 ∷ [] }
    ensures next { (front : List ℕ) → bytes.old.items ≡ front ++ 0 ∷ [] → bytes.new.items ≡ front ++ OPEN_GATE ∷ (frame.now ++ 0 ∷ []) }
    ensures len { vec_len bytes.new ≡ vec_len bytes.old + length frame.now + 1 }
    ensures capacity { vec_capacity bytes.old ≤ vec_capacity bytes.new }
{
    let end = bytes.len();
    if end > 0 {
        bytes[end - 1] = OPEN_GATE;
    }
    put(bytes, frame);
    put(bytes, &[CLOSED_GATE]);
}
