//! Carries out the command that its words name, on the folder `hwal-store`, standard input and standard output.
//!
//! It makes the outside and hands it to the top call: what is proved is proved there. What a real folder and the streams
//! hold is known to no proof.
#![tactic(auto)]

mod causes;

use causes::Ended;
use disk_folder::{Access, FolderDisk, ReaderSource, WriterSink};
use load_run::{FreeGate, Status, refuse, run};
use std::alloc::AllocError;
use std::fs::File;
use std::process::ExitCode;
use std::rt::{Env, Files};
use std::{env, io};

/// The words after the program's name. Where they are no text there are none, and so no command.
fn arguments<R: Env + AllocGlobal>(rt: &R) -> Result<Vec<String>, AllocError> {
    match env::args(rt) {
        Ok(args) => args.skip(1).collect(rt.alloc()),
        Err(e) if e.kind() == io::ErrorKind::OutOfMemory => Err(AllocError),
        Err(_) => Ok(Vec::new(rt.alloc())),
    }
}

/// What a command does with the store.
fn access_of(words: &[&str]) -> Access {
    match words {
        [word] if *word == "show" => Access::Reading,
        [word, _] if *word == "dump" => Access::Reading,
        [word, _, _] if *word == "ship" => Access::Reading,
        _ => Access::Writing,
    }
}

/// Takes the descriptors 0, 1 and 2 where the caller left them closed. Else a file of the store would get one of them,
/// and be read or written as a stream.
fn hold_streams<R: Files<File = File>>(rt: &R) -> io::Result<[File; 3]> {
    Ok([
        File::open(rt, "/")?,
        File::open(rt, "/")?,
        File::open(rt, "/")?,
    ])
}

// Threads are had in `main` alone, so it makes the parts itself.
fn main(rt: HostRuntime) -> ExitCode {
    let _held = match hold_streams(&rt) {
        Ok(held) => held,
        Err(e) => {
            let _ = eprintln!(rt; "hwal: open /: {e}");
            return ExitCode::from(Status::SinkFault.number());
        }
    };
    let alloc = rt.alloc();
    let mut out = WriterSink::new(io::writer(&rt));
    let Ok(args) = arguments(&rt) else {
        let status = refuse(&mut out, Status::Memory);
        return Ended::before_work(status, out.cause()).tell(&rt, &[]);
    };
    let Ok(words) = args
        .iter()
        .map(|word| word.as_str())
        .collect::<Vec<&str>>(alloc)
    else {
        let status = refuse(&mut out, Status::Memory);
        return Ended::before_work(status, out.cause()).tell(&rt, &[]);
    };
    let mut script = ReaderSource::new(rt.reader());
    let disk = FolderDisk::new(&rt, alloc, access_of(&words));
    let outcome = run(&rt, alloc, &words, &mut script, disk, &mut out, &FreeGate);
    let ended = Ended {
        status: outcome.status,
        input: script.cause(),
        output: out.cause(),
        was_absent: outcome.disk.was_absent(),
    };
    ended.tell(&rt, &words)
}
