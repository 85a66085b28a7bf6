//! Lines that stand between `repeat` and `done`.

use crate::fault::LineFault;
use crate::words::LineKind;
use std::alloc::Global;

/// So many turns at most.
const MOST_TURNS: u64 = 1_000_000;

/// A line of the script or of the output.
#[derive(Drop)]
pub struct StreamLine {
    pub line: u64,
    pub kind: LineKind,
    pub text: String,
}

/// Lines that come again, turn by turn.
#[derive(Drop)]
pub struct Block {
    pub turns: u64,
    pub lines: Vec<StreamLine>,
}

impl Block {
    /// The block that `repeat` begins with this text.
    pub fn begun(alloc: Global, turns: &str) -> Result<Block, LineFault> {
        match turns.parse::<u64>() {
            Ok(turns) if turns <= MOST_TURNS => Ok(Block {
                turns,
                lines: Vec::new(alloc),
            }),
            _ => Err(LineFault::NoNumber),
        }
    }

    /// Keeps a line, which has its line feed.
    pub fn keep(
        &mut self,
        alloc: Global,
        line: u64,
        kind: LineKind,
        text: &str,
    ) -> Result<(), LineFault> {
        match kind {
            LineKind::Script | LineKind::Output => {
                let text = String::from_str(alloc, text)?;
                self.lines.push(StreamLine { line, kind, text })?;
                Ok(())
            }
            _ => Err(LineFault::NotRepeated),
        }
    }
}
