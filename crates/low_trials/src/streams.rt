//! Streams that a signal interrupts.

use disk_folder::{ReaderSource, WriterSink};
use disk_images::{Sink, Source};
use std::io::{self, ErrorKind, Read, Write};
use std::test::*;

/// Is interrupted this often, and then answers.
#[derive(Drop)]
struct Interrupted {
    times: u32,
}

impl Interrupted {
    fn step(&mut self) -> io::Result<usize> {
        if self.times == 0 {
            return Ok(0);
        }
        self.times -= 1;
        Err(io::Error::from(ErrorKind::Interrupted))
    }
}

impl Read for Interrupted {
    fn read(&mut self, into: &mut [u8]) -> io::Result<usize> {
        self.step()?;
        into.fill(7);
        Ok(into.len())
    }
}

impl Write for Interrupted {
    fn write(&mut self, bytes: &[u8]) -> io::Result<usize> {
        self.step()?;
        Ok(bytes.len())
    }

    fn flush(&mut self) -> io::Result<()> {
        Ok(())
    }
}

/// Whether two bytes are read, after three signals.
fn reads_both() -> bool {
    let mut source = ReaderSource::new(Interrupted { times: 3 });
    let mut bytes = [0; 2];
    let is_read = matches!(source.read(&mut bytes), Ok(2));
    is_read && bytes == [7, 7]
}

/// Whether three bytes are written, after two signals.
fn writes_all() -> bool {
    let mut sink = WriterSink::new(Interrupted { times: 2 });
    matches!(sink.write(b"abc"), Ok(3))
}

#[test]
fn a_signal_is_no_fault(rt: HostRuntime) {
    assert!(rt; reads_both());
    assert!(rt; writes_all());
}
