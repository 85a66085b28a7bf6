//! A source and a sink that take no memory once they are made, and calls of the program on them.

use disk_fakes::{SafeDisk, SafeSink, SafeSource};
use kv_cell::NoMemory;
use load_run::{FreeGate, Outcome, Status, run};
use std::alloc::Global;
use std::process::Abort;
use std::str;
use std::sync::Wait;
use std::test::Fail as TestFail;
use std::thread::Threads;

/// Room for the calls and the bytes of a disk, and for the bytes of an output.
const ROOM: usize = 8_192;

/// A disk without files, whose own memory is taken here.
pub(crate) fn empty_disk(alloc: Global) -> Result<SafeDisk, NoMemory> {
    SafeDisk::new(alloc, ROOM)
}

/// What a call reads, and what it prints.
#[derive(Drop)]
pub(crate) struct Streams {
    source: SafeSource,
    sink: SafeSink,
}

impl Streams {
    pub(crate) fn new(alloc: Global, script: &str) -> Result<Streams, NoMemory> {
        Ok(Streams {
            source: SafeSource::new(alloc, script.as_bytes())?,
            sink: SafeSink::new(alloc, ROOM)?,
        })
    }

    /// What was printed.
    pub(crate) fn text(&self) -> Result<&str, TestFail> {
        Ok(str::from_utf8(self.sink.as_slice())?)
    }
}

/// A call of the program, whose handlers nobody holds.
pub(crate) fn call<R: Threads + Wait + Sync + AllocGlobal>(
    rt: &R,
    word: &str,
    disk: SafeDisk,
    streams: &mut Streams,
) -> Outcome<SafeDisk> {
    let Streams { source, sink } = streams;
    run(rt, rt.alloc(), &[word], source, disk, sink, &FreeGate)
}

/// What a disk is recovered with, once or twice.
#[derive(Drop)]
pub(crate) struct Recovery {
    first: Streams,
    second: Streams,
}

/// How a recovery ended, and how the second one that was made where the first was refused memory.
#[derive(Clone, Copy)]
pub(crate) struct Ends {
    once: Status,
    again: Option<Status>,
}

impl Recovery {
    pub(crate) fn new(alloc: Global) -> Result<Recovery, NoMemory> {
        Ok(Recovery {
            first: Streams::new(alloc, "")?,
            second: Streams::new(alloc, "")?,
        })
    }

    /// Recovers a disk, and once more where memory was refused: there is enough the second time.
    pub(crate) fn recover<R: Threads + Wait + Sync + AllocGlobal>(
        &mut self,
        rt: &R,
        disk: SafeDisk,
    ) -> (Ends, SafeDisk) {
        let Outcome { status: once, disk } = call(rt, "recover", disk, &mut self.first);
        if once != Status::Memory {
            return (Ends { once, again: None }, disk);
        }
        let Outcome { status, disk } = call(rt, "recover", disk, &mut self.second);
        let again = Some(status);
        (Ends { once, again }, disk)
    }

    /// What the last one printed. Asserts that it was done, and that one before it printed the refusal alone.
    pub(crate) fn text<R: Abort>(&self, rt: &R, ends: Ends) -> Result<&str, TestFail> {
        let Some(again) = ends.again else {
            assert_eq!(rt; ends.once, Status::Done);
            return self.first.text();
        };
        assert_eq!(rt; self.first.text()?, REFUSED);
        assert_eq!(rt; again, Status::Done);
        self.second.text()
    }
}

/// What is printed where nothing else was.
pub(crate) const REFUSED: &str = "refused memory\n";
