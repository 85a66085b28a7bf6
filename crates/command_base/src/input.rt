//! Reading a script.

ghost use Rattle.std.specs.Prelude.{◌≡◌, ◌<◌, ◌≤◌, ◌+◌, ◌++◌, [], length, take, vec_len, IsTrue, IfOk, OnOk, IsErrOf};
ghost use Rattle.disk_images.specs.Calls.{Rose};
ghost use Rattle.command_base.specs.declared.input.InputError.TheVariants.{Memory};

use disk_images::Source;
use std::alloc::{AllocError, Global};

/// No more bytes than that are read: a script has at most one fewer.
const MAX_READ: usize = 16_777_217;

const PIECE: usize = 16_384;

/// Why a source could not be read to its end.
#[derive(Clone, Copy)]
pub enum InputError {
    /// A read failed.
    Failed,
    /// Memory was refused.
    Memory,
}

impl From<AllocError> for InputError {
    ghost from_gives = { λ _ e. e ≡ Memory };

    fn from(_: AllocError) -> Self {
        InputError::Memory
    }
}

/// Reads to the end, or until 16,777,217 bytes were read.
pub fn read_to_end<S: Source>(alloc: Global, source: &mut S) -> Result<Vec<u8>, InputError>
    ensures bytes { IsTrue S.told → IfOk result (λ text. text.items ≡ take 16777217 (S.left source.old)) }
    ensures later { S.faults source.old ≤ S.faults source.new }
    ensures cause { IsErrOf result InputError.Failed → Rose (S.faults source.old) (S.faults source.new) }
{
    let mut text = Vec::new(alloc);
    while text.len() < MAX_READ {
        let room = MAX_READ - text.len();
        if read_more(source, &mut text, room)? == 0 {
            return Ok(text);
        }
    }
    Ok(text)
}

/// Reads one piece of at most so many bytes.
fn read_more<S: Source>(
    source: &mut S,
    text: &mut Vec<u8>,
    room: usize,
) -> Result<usize, InputError>
    requires { 0 < room }
    ensures bytes { IsTrue S.told → OnOk result (text.old.items ++ S.left source.old ≡ text.new.items ++ S.left source.new) }
    ensures count { IfOk result (λ n. vec_len text.new ≡ vec_len text.old + n) }
    ensures most { IfOk result (λ n. n ≤ room) }
    ensures end { IsTrue S.told → IfOk result (λ n. n ≡ 0 → S.left source.new ≡ []) }
    ensures later { S.faults source.old ≤ S.faults source.new }
    ensures cause { IsErrOf result InputError.Failed → Rose (S.faults source.old) (S.faults source.new) }
{
    let mut buffer = [0u8; PIECE];
    let room = room.min(PIECE);
    let Ok(n) = source.read(&mut buffer[..room]) else {
        return Err(InputError::Failed);
    };
    text.extend_from_slice(&buffer[..n])?;
    Ok(n)
}
