//! The output that a row tells, line by line, and how it differs from what was printed.

use crate::fault::LineFault;
use crate::matching::fits;
use crate::piece::{Piece, read_pieces};
use crate::showing::{add_bytes, add_pieces};
use std::alloc::{AllocError, Global};

/// A line of the expected output.
#[derive(Drop)]
pub struct ExpectedLine {
    /// Where it stands in the row's file.
    pub line: u64,
    /// What it says, or None where any line may stand.
    pub pieces: Option<Vec<Piece>>,
    /// Whether it ends in a line feed.
    pub is_ended: bool,
}

impl ExpectedLine {
    /// Whether a line was printed that may stand here.
    fn is_met(&self, alloc: Global, found: Option<&[u8]>) -> Result<bool, AllocError> {
        let Some(printed) = found else {
            return Ok(false);
        };
        let (text, is_ended) = match printed.strip_suffix(b"\n") {
            Some(text) => (text, true),
            None => (printed, false),
        };
        if is_ended != self.is_ended {
            return Ok(false);
        }
        match &self.pieces {
            None => Ok(true),
            Some(pieces) => fits(alloc, pieces, text),
        }
    }

    /// Adds the line as it is told to a reader.
    fn add_to(&self, alloc: Global, text: &mut String) -> Result<(), AllocError> {
        match &self.pieces {
            None => text.push_str("`{any}")?,
            Some(pieces) => {
                text.push_str("`")?;
                add_pieces(alloc, text, pieces)?;
            }
        }
        text.push_str(if self.is_ended { "\\n`" } else { "`" })
    }
}

/// Adds a line with this text to the expected ones, in the turn of this number where it is repeated.
pub fn add_expected(
    alloc: Global,
    lines: &mut Vec<ExpectedLine>,
    line: u64,
    text: &str,
    is_ended: bool,
    turn: Option<u64>,
) -> Result<(), LineFault> {
    let pieces = if text == "{any}" {
        None
    } else {
        Some(read_pieces(alloc, text, turn)?)
    };
    lines.push(ExpectedLine {
        line,
        pieces,
        is_ended,
    })?;
    Ok(())
}

/// In what a run differs from its row, and the line of the row's file that says otherwise.
#[derive(Drop)]
pub struct Difference {
    pub line: u64,
    pub what: String,
}

/// Tells the first line of the output that isn't the expected one. What comes after the last expected line is told at the
/// line of the status.
pub fn add_output(
    alloc: Global,
    told: &mut Vec<Difference>,
    expected: &[ExpectedLine],
    status_line: u64,
    output: &[u8],
) -> Result<(), AllocError> {
    let mut printed = output.split_inclusive(|byte| *byte == b'\n');
    for line in expected {
        let found = printed.next();
        if !line.is_met(alloc, found)? {
            return add_line(alloc, told, line.line, Some(line), found);
        }
    }
    match printed.next() {
        None => Ok(()),
        more => add_line(alloc, told, status_line, None, more),
    }
}

fn add_line(
    alloc: Global,
    told: &mut Vec<Difference>,
    line: u64,
    expected: Option<&ExpectedLine>,
    found: Option<&[u8]>,
) -> Result<(), AllocError> {
    let mut what = String::new(alloc);
    tell_line(alloc, &mut what, expected, found)?;
    told.push(Difference { line, what })?;
    Ok(())
}

fn tell_line(
    alloc: Global,
    what: &mut String,
    expected: Option<&ExpectedLine>,
    found: Option<&[u8]>,
) -> Result<(), AllocError> {
    what.push_str("output: expected ")?;
    match expected {
        None => what.push_str("no more")?,
        Some(line) => line.add_to(alloc, what)?,
    }
    match found {
        None => what.push_str(", found no more"),
        Some(printed) => {
            what.push_str(", found `")?;
            add_bytes(alloc, what, printed)?;
            what.push_str("`")
        }
    }
}
