//! Runs a script on the folders `hwal-store-1` to `hwal-store-N`, each with a log of its own for a group of the regions. The one word is N, a
//! digit from 1 to 4. The script comes from standard input, and the report goes to standard output.
//!
//! It makes the outside and hands it to the top call: what is proved is proved there. What real folders and the streams
//! hold is known to no proof.
#![tactic(auto)]

mod causes;
mod folders;

use causes::{Ended, tell_absent};
use disk_folder::{ReaderSource, WriterSink};
use folders::folders;
use groups_command::region_calls::FreeGate;
use groups_command::{GroupsStatus, disks_in, refuse, run_groups};
use std::alloc::AllocError;
use std::fs::File;
use std::process::ExitCode;
use std::rt::{Env, Files};
use std::{env, io};

/// The words after the program's name. Where they are no text there are none, and so no number.
fn arguments<R: Env + AllocGlobal>(rt: &R) -> Result<Vec<String>, AllocError> {
    match env::args(rt) {
        Ok(args) => args.skip(1).collect(rt.alloc()),
        Err(e) if e.kind() == io::ErrorKind::OutOfMemory => Err(AllocError),
        Err(_) => Ok(Vec::new(rt.alloc())),
    }
}

/// Takes the descriptors 0, 1 and 2 where the caller left them closed. Else a file of a store would get one of them,
/// and be read or written as a stream.
fn hold_streams<R: Files<File = File>>(rt: &R) -> io::Result<[File; 3]> {
    Ok([
        File::open(rt, "/")?,
        File::open(rt, "/")?,
        File::open(rt, "/")?,
    ])
}

// Threads are had in `main` alone, so it makes the parts itself.
fn main(rt: HostRuntime) -> ExitCode {
    let _held = match hold_streams(&rt) {
        Ok(held) => held,
        Err(e) => {
            let _ = eprintln!(rt; "hwal: open /: {e}");
            return ExitCode::from(GroupsStatus::SinkFault.number());
        }
    };
    let alloc = rt.alloc();
    let mut out = WriterSink::new(io::writer(&rt));
    let Ok(args) = arguments(&rt) else {
        let status = refuse(&mut out, GroupsStatus::Memory);
        return Ended::before_work(status, out.cause()).tell(&rt);
    };
    let Ok(words) = args
        .iter()
        .map(|word| word.as_str())
        .collect::<Vec<&str>>(alloc)
    else {
        let status = refuse(&mut out, GroupsStatus::Memory);
        return Ended::before_work(status, out.cause()).tell(&rt);
    };
    let mut script = ReaderSource::new(rt.reader());
    // With words that name no number the call refuses, and no folder is looked at.
    let disks = folders(&rt, alloc, disks_in(&words).unwrap_or(1));
    let outcome = run_groups(&rt, alloc, &words, &mut script, disks, &mut out, &FreeGate);
    let ended = Ended {
        status: outcome.status,
        input: script.cause(),
        output: out.cause(),
    };
    tell_absent(&rt, &outcome.disks);
    ended.tell(&rt)
}
