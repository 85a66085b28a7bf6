//! Reading a row's file, line by line.

use crate::fault::{LineFault, RowFault};
use crate::repeated::{Block, StreamLine};
use crate::row::Row;
use crate::words::{LineKind, kind_of, parted};
use std::alloc::Global;

/// Where in a row the next line stands.
#[derive(Clone, Copy, PartialEq, Eq)]
enum Place {
    /// Before the first step.
    Head,
    /// In a step, before its status.
    Inside,
    /// After a step's status.
    Behind,
}

impl Place {
    /// Refuses a line that doesn't stand here.
    fn see(self, kind: LineKind) -> Result<(), LineFault> {
        match kind {
            LineKind::Call if self == Place::Inside => Err(LineFault::NoStatus),
            LineKind::From | LineKind::File if self != Place::Head => Err(LineFault::BehindHead),
            LineKind::Left | LineKind::Bytes if self != Place::Behind => {
                Err(LineFault::BeforeStatus)
            }
            LineKind::Call
            | LineKind::From
            | LineKind::File
            | LineKind::Left
            | LineKind::Bytes
            | LineKind::More => Ok(()),
            _ if self != Place::Inside => Err(LineFault::OutsideStep),
            _ => Ok(()),
        }
    }
}

/// What has been read of a row.
#[derive(Drop)]
struct RowReader {
    alloc: Global,
    row: Row,
    place: Place,
    // the lines after a `repeat` that isn't done
    block: Option<Block>,
    // whether the line before holds hexadecimal
    extends: bool,
}

impl RowReader {
    fn new(alloc: Global) -> RowReader {
        RowReader {
            alloc,
            row: Row::new(alloc),
            place: Place::Head,
            block: None,
            extends: false,
        }
    }

    /// Takes all lines of a text, and sees that a whole row ends there.
    fn take_all(&mut self, text: &str) -> Result<(), RowFault> {
        let mut line = 0u64;
        for item in text.split('\n') {
            line = line.saturating_add(1);
            if let Err(fault) = self.take(line, item) {
                return Err(RowFault { line, fault });
            }
        }
        match self.see_whole() {
            Ok(()) => Ok(()),
            Err(fault) => Err(RowFault { line, fault }),
        }
    }

    fn take(&mut self, line: u64, text: &str) -> Result<(), LineFault> {
        if text.starts_with('#') {
            return Ok(());
        }
        if line == 1 {
            return Err(LineFault::NoComment);
        }
        if text.trim().is_empty() {
            return Ok(());
        }
        let (word, rest) = parted(text);
        let kind = kind_of(word)?;
        if kind == LineKind::Done {
            return self.end_block();
        }
        if let Some(block) = &mut self.block {
            return block.keep(self.alloc, line, kind, rest);
        }
        self.take_item(line, kind, rest)
    }

    fn take_item(&mut self, line: u64, kind: LineKind, rest: &str) -> Result<(), LineFault> {
        if kind == LineKind::More && !self.extends {
            return Err(LineFault::NothingToExtend);
        }
        self.extends = matches!(kind, LineKind::File | LineKind::Bytes | LineKind::More);
        self.place.see(kind)?;
        match kind {
            LineKind::Call => {
                self.place = Place::Inside;
                self.row.begin_step(self.alloc, rest)
            }
            LineKind::Repeat => {
                self.block = Some(Block::begun(self.alloc, rest)?);
                Ok(())
            }
            _ if self.place == Place::Head => self.row.take(self.alloc, line, kind, rest),
            _ => self.take_inside(line, kind, rest, None),
        }
    }

    /// A line of the step that is read.
    fn take_inside(
        &mut self,
        line: u64,
        kind: LineKind,
        rest: &str,
        turn: Option<u64>,
    ) -> Result<(), LineFault> {
        if kind == LineKind::Status {
            self.place = Place::Behind;
        }
        match self.row.steps.last_mut() {
            Some(step) => step.take(self.alloc, line, kind, rest, turn),
            None => Err(LineFault::NoStep),
        }
    }

    /// Takes the lines of a block, turn by turn.
    fn end_block(&mut self) -> Result<(), LineFault> {
        let Some(block) = self.block.take() else {
            return Err(LineFault::NoRepeat);
        };
        for turn in 0..block.turns {
            self.take_turn(&block.lines, turn + 1)?;
        }
        Ok(())
    }

    fn take_turn(&mut self, lines: &[StreamLine], turn: u64) -> Result<(), LineFault> {
        for it in lines {
            self.take_inside(it.line, it.kind, it.text.as_str(), Some(turn))?;
        }
        Ok(())
    }

    /// Refuses a row that goes on.
    fn see_whole(&self) -> Result<(), LineFault> {
        if self.block.is_some() {
            return Err(LineFault::NoDone);
        }
        match self.place {
            Place::Head => Err(LineFault::NoStep),
            Place::Inside => Err(LineFault::NoStatus),
            Place::Behind => Ok(()),
        }
    }
}

/// The row that a file's text says.
pub fn read_row(alloc: Global, text: &str) -> Result<Row, RowFault> {
    let mut reader = RowReader::new(alloc);
    reader.take_all(text)?;
    let RowReader { row, .. } = reader;
    Ok(row)
}
