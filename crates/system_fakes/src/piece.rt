// Files as bytes in memory.
ghost use Rattle.std.specs.Prelude.{◌≡◌, ◌<◌, ◌≤◌, ◌-◌, ◌++◌, [], ◌∷◌, length, min, take, drop, vec_len, vec_capacity, true, false, OnOk, OnErr, IfOk};
ghost use Rattle.disk_images.specs.Crash.{overwritten};
ghost use Rattle.std.specs.Prelude.{get_or, set};
ghost use Rattle.system_fakes.specs.Texts.{texts_in};

use std::alloc::{AllocError, Global};
use std::cmp::min;

/// Writes over what is there, and past the end.
pub fn write_over(file: &mut Vec<u8>, at: usize, bytes: &[u8]) -> Result<(), AllocError>
    requires { at ≤ length file.old.items }
    ensures written { OnOk result (file.new.items ≡ overwritten file.old.items at bytes.now) }
    ensures err { OnErr result (file.new.items ≡ file.old.items) }
{
    file.reserve(bytes.len())?;
    let over = min(file.len() - at, bytes.len());
    file[at..at + over].copy_from_slice(&bytes[..over]);
    match file.extend_from_slice(&bytes[over..]) {
        Ok(()) => Ok(()),
        Err(_) => unreachable!(),
    }
}

/// Writes over what is there in one of the files, and past its end.
pub fn write_file(
    files: &mut Vec<Vec<u8>>,
    inode: usize,
    at: usize,
    bytes: &[u8],
) -> Result<(), AllocError>
    requires given { inode < length files.old.items }
    requires within { at ≤ length (get_or (texts_in files.old.items) inode []) }
    ensures written { OnOk result
        (texts_in files.new.items ≡ set (texts_in files.old.items) inode (overwritten (get_or (texts_in files.old.items) inode []) at bytes.now)) }
    ensures err { OnErr result (texts_in files.new.items ≡ texts_in files.old.items) }
{
    write_over(&mut files[inode], at, bytes)
}

/// Adds a file to the list, which has room for it.
pub fn push_file(files: &mut Vec<Vec<u8>>, file: Vec<u8>)
    requires { vec_len files.old < vec_capacity files.old }
    ensures { files.new.items ≡ files.old.items ++ file ∷ [] }
{
    match files.push(file) {
        Ok(()) => {}
        Err(_) => unreachable!(),
    }
}

/// Adds an inode to the list, which has room for it.
pub fn push_inode(inodes: &mut Vec<u64>, inode: u64)
    requires { vec_len inodes.old < vec_capacity inodes.old }
    ensures { inodes.new.items ≡ inodes.old.items ++ inode ∷ [] }
{
    match inodes.push(inode) {
        Ok(()) => {}
        Err(_) => unreachable!(),
    }
}

/// Reads what stands from this place on.
pub fn read_from(bytes: &[u8], at: u64, into: &mut [u8]) -> usize
    ensures count { result ≡ min (length into.old) (length bytes.now - at) }
    ensures bytes { into.new ≡ take result (drop at bytes.now) ++ drop result into.old }
{
    if at > bytes.len() as u64 {
        return 0;
    }
    let at = at as usize;
    let count = min(into.len(), bytes.len() - at);
    into[..count].copy_from_slice(&bytes[at..at + count]);
    count
}

/// The bytes, or a torn form of them that is as long.
pub fn carried(alloc: Global, bytes: &[u8], is_torn: bool) -> Result<Vec<u8>, AllocError>
    ensures long { IfOk result (λ copy. length copy.items ≡ length bytes.now) }
    ensures whole { is_torn ≡ false → IfOk result (λ copy. copy.items ≡ bytes.now) }
{
    if is_torn {
        half_written(alloc, bytes)
    } else {
        bytes.to_vec(alloc)
    }
}

/// The first half of the bytes, and the others with each bit turned over.
fn half_written(alloc: Global, bytes: &[u8]) -> Result<Vec<u8>, AllocError>
    ensures { IfOk result (λ copy. length copy.items ≡ length bytes.now) }
{
    let mut copy = bytes.to_vec(alloc)?;
    let half = copy.len() - copy.len() / 2;
    turn_over(&mut copy[half..]);
    Ok(copy)
}

fn turn_over(bytes: &mut [u8]) {
    for byte in bytes.iter_mut() {
        *byte ^= 0xFF;
    }
}

/// The first half of the bytes.
pub fn front_half(alloc: Global, bytes: &[u8]) -> Result<Vec<u8>, AllocError>
    ensures { IfOk result (λ copy. length copy.items ≤ length bytes.now) }
{
    bytes[..bytes.len() - bytes.len() / 2].to_vec(alloc)
}

/// The bytes, of which every second one has each bit turned over.
pub fn every_second_torn(alloc: Global, bytes: &[u8]) -> Result<Vec<u8>, AllocError>
    ensures { IfOk result (λ copy. length copy.items ≡ length bytes.now) }
{
    let mut copy = bytes.to_vec(alloc)?;
    tear_every_second(&mut copy);
    Ok(copy)
}

fn tear_every_second(bytes: &mut [u8]) {
    for (place, byte) in bytes.iter_mut().enumerate() {
        if place % 2 == 1 {
            *byte ^= 0xFF;
        }
    }
}
