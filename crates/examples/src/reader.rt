//! A handler that reads.

use anyhow::Result;
use embedded_run::{Handler, ScanReply, Session};
use std::alloc::Global;

/// A reader, and what it was shown: a line for each cell, in order of rows.
#[derive(Drop)]
pub struct Reader {
    alloc: Global,
    lines: Option<Vec<String>>,
}

/// The cells of a scan. They are shared with the region, so what is kept of them is copied.
pub(crate) fn lines_of(alloc: Global, reply: &ScanReply) -> Result<Vec<String>> {
    let mut lines = Vec::new(alloc);
    for row in reply.cells.as_slice() {
        let cell = row.cell();
        let key = String::from_utf8_lossy(alloc, cell.row.as_slice())?;
        let name = String::from_utf8_lossy(alloc, cell.value.as_slice())?;
        lines.push(format!(in alloc; "{key} is {name}")?)?;
    }
    Ok(lines)
}

impl Reader {
    pub fn new(alloc: Global) -> Reader {
        Reader { alloc, lines: None }
    }

    /// Prints what it was shown.
    pub fn print<R: Print + AllocGlobal>(&self, rt: &R) -> Result<()> {
        let Some(lines) = &self.lines else {
            return Ok(());
        };
        for line in lines {
            println!(rt; "{line}")?;
        }
        Ok(())
    }
}

impl Handler for Reader {
    // It promises nothing of itself.
    ghost did = { λ _ _ _ _ _ _. Unit {0} };

    fn work<S: Session>(&mut self, at: &mut S) {
        if let Ok(reply) = at.scan(1, b"", b"") {
            self.lines = lines_of(self.alloc, &reply).ok();
        }
    }
}
