//! What the system lets this process do.

use std::alloc::Global;
use std::fs::File;
use std::io;
use std::rt::Files;

/// What the system answers to a write past the limit, where its signal doesn't end the process.
const EFBIG: i32 = 27;

/// Where Linux lists the limits of a process.
const LIMITS: &str = "/proc/self/limits";

/// A file would get longer than it may.
pub fn too_long() -> io::Error {
    io::Error::from_raw_os_error(EFBIG)
}

/// The greatest length in bytes of a file that this process may write (`ulimit -f`): past it the system would end the process by a
/// signal. Where the system lists no limits there is none to keep.
pub fn longest_file<R: Files<File = File>>(rt: &R, alloc: Global) -> io::Result<u64> {
    match File::open(rt, LIMITS) {
        Ok(listed) => {
            let text = io::read_to_string(alloc, listed)?;
            Ok(limit_in(text.as_str()))
        }
        Err(_) => Ok(u64::MAX),
    }
}

/// Its line has the words `Max file size`, and then the limit in force: a number, or `unlimited`.
fn limit_in(text: &str) -> u64 {
    for line in text.lines() {
        if let Some(rest) = line.strip_prefix("Max file size") {
            let word = rest.split_whitespace().next();
            return word
                .and_then(|word| word.parse::<u64>().ok())
                .unwrap_or(u64::MAX);
        }
    }
    u64::MAX
}
