// What a write carries to the disk: all its bytes, or torn ones.
ghost use Rattle.std.specs.Prelude.{◌≡◌, ◌≤◌, ℕ, List, length, true, false, IfOk};

use std::alloc::{AllocError, Global};

/// The bytes, or a torn form of them that is as long.
pub fn carried(alloc: Global, bytes: &[u8], is_torn: bool) -> Result<Vec<u8>, AllocError>
    ensures long { IfOk result (λ copy. length copy.items ≡ length bytes.now) }
    ensures whole { is_torn ≡ false → IfOk result (λ copy. copy.items ≡ bytes.now) }
{
    if is_torn {
        half_written(alloc, bytes)
    } else {
        bytes.to_vec(alloc)
    }
}

/// The first half of the bytes, and the others with each bit turned over.
fn half_written(alloc: Global, bytes: &[u8]) -> Result<Vec<u8>, AllocError>
    ensures { IfOk result (λ copy. length copy.items ≡ length bytes.now) }
{
    let mut copy = bytes.to_vec(alloc)?;
    let half = copy.len() - copy.len() / 2;
    turn_over(&mut copy[half..]);
    Ok(copy)
}

fn turn_over(bytes: &mut [u8]) {
    for byte in bytes.iter_mut() {
        *byte ^= 0xFF;
    }
}

/// The first half of the bytes.
pub fn front_half(alloc: Global, bytes: &[u8]) -> Result<Vec<u8>, AllocError>
    ensures { IfOk result (λ copy. length copy.items ≤ length bytes.now) }
{
    bytes[..bytes.len() - bytes.len() / 2].to_vec(alloc)
}

/// The bytes, of which every second one has each bit turned over.
pub fn every_second_torn(alloc: Global, bytes: &[u8]) -> Result<Vec<u8>, AllocError>
    ensures { IfOk result (λ copy. length copy.items ≡ length bytes.now) }
{
    let mut copy = bytes.to_vec(alloc)?;
    tear_every_second(&mut copy);
    Ok(copy)
}

fn tear_every_second(bytes: &mut [u8]) {
    for (place, byte) in bytes.iter_mut().enumerate() {
        if place % 2 == 1 {
            *byte ^= 0xFF;
        }
    }
}
