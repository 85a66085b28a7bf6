//! Standard input and output. What they give and take is not known to any proof.

ghost use Rattle.std.specs.Prelude.{◌≤◌, [], false, length, IfOk};
ghost use Rattle.disk_images.specs.Calls.{Rose};

use disk_images::{Failed, Sink, Source};
use std::io::{self, ErrorKind, Read, Write};

/// A source of what a reader gives.
#[derive(Drop)]
pub struct ReaderSource<R> {
    reader: R,
    faults: u64,
    cause: Option<io::Error>,
}

impl<R> ReaderSource<R> {
    pub fn new(reader: R) -> Self {
        ReaderSource {
            reader,
            faults: 0,
            cause: None,
        }
    }

    /// Why the last read failed that did.
    pub fn cause(&self) -> Option<io::Error> {
        self.cause
    }
}

impl<R: Read> Source for ReaderSource<R> {
    ghost told = { false };

    ghost left = { λ _. [] };

    ghost faults = { λ source. source.faults };

    fn read(&mut self, into: &mut [u8]) -> Result<usize, Failed> {
        match read_some(&mut self.reader, into) {
            Ok(n) => Ok(n),
            Err(cause) => {
                self.faults = self.faults.saturating_add(1);
                self.cause = Some(cause);
                Err(Failed)
            }
        }
    }
}

/// A sink that hands all to a writer. A write that takes nothing is a fault.
#[derive(Drop)]
pub struct WriterSink<W> {
    writer: W,
    faults: u64,
    cause: Option<io::Error>,
}

impl<W> WriterSink<W> {
    pub fn new(writer: W) -> Self {
        WriterSink {
            writer,
            faults: 0,
            cause: None,
        }
    }

    /// Why the last write failed that did.
    pub fn cause(&self) -> Option<io::Error> {
        self.cause
    }
}

impl<W: Write> Sink for WriterSink<W> {
    ghost told = { false };

    ghost taken = { λ _. [] };

    ghost faults = { λ sink. sink.faults };

    fn write(&mut self, bytes: &[u8]) -> Result<usize, Failed> {
        let cause = match write_some(&mut self.writer, bytes) {
            Ok(n) if n > 0 || bytes.is_empty() => return Ok(n),
            Ok(_) => io::Error::from(ErrorKind::WriteZero),
            Err(cause) => cause,
        };
        self.faults = self.faults.saturating_add(1);
        self.cause = Some(cause);
        Err(Failed)
    }
}

/// Reads, and again where a signal came between.
fn read_some<R: Read>(reader: &mut R, into: &mut [u8]) -> io::Result<usize>
    ensures within { IfOk result (λ n. n ≤ length into.old) }
{
    for _ in 0..u64::MAX {
        match reader.read(into) {
            Err(e) if e.kind() == ErrorKind::Interrupted => {}
            answer => return answer,
        }
    }
    Err(io::Error::from(ErrorKind::Interrupted))
}

/// Writes, and again where a signal came between.
fn write_some<W: Write>(writer: &mut W, bytes: &[u8]) -> io::Result<usize>
    ensures within { IfOk result (λ n. n ≤ length bytes.now) }
{
    for _ in 0..u64::MAX {
        match writer.write(bytes) {
            Err(e) if e.kind() == ErrorKind::Interrupted => {}
            answer => return answer,
        }
    }
    Err(io::Error::from(ErrorKind::Interrupted))
}
