//! What is wrong with the text of a row's file.

use std::alloc::{AllocError, AllocFailed};
use std::fmt;

/// What is wrong with one line, or with the text that ends there.
#[derive(Clone, Copy)]
pub enum LineFault {
    Memory,
    NoText,
    NoComment,
    Word,
    BehindHead,
    OutsideStep,
    BeforeStatus,
    NoStep,
    NoStatus,
    Twice,
    NoRow,
    NoName,
    NoBytes,
    NothingToExtend,
    NoNumber,
    NoCall,
    OpenBrace,
    Braces,
    NoTurn,
    EitherInScript,
    BehindLast,
    NotRepeated,
    NoRepeat,
    NoDone,
}

impl LineFault {
    fn text(self) -> &'static str {
        match self {
            LineFault::Memory => "out of memory",
            LineFault::NoText => "this cannot be read as text",
            LineFault::NoComment => "the first line is no comment",
            LineFault::Word => "no line of a row begins with this word",
            LineFault::BehindHead => "this line stands before the first step alone",
            LineFault::OutsideStep => "this line stands in a step, before its status",
            LineFault::BeforeStatus => "this line stands behind a step's status",
            LineFault::NoStep => "there is no step",
            LineFault::NoStatus => "the step above has no status",
            LineFault::Twice => "this is said twice",
            LineFault::NoRow => "this names no row",
            LineFault::NoName => "this is no name of a store's file",
            LineFault::NoBytes => "this is no hexadecimal of whole bytes",
            LineFault::NothingToExtend => "no hexadecimal stands on the line before",
            LineFault::NoNumber => "this is no number that may stand here",
            LineFault::NoCall => "no call of this name can fail",
            LineFault::OpenBrace => "a brace is not closed",
            LineFault::Braces => "nothing is written so in braces",
            LineFault::NoTurn => "a turn's number stands between `repeat` and `done` alone",
            LineFault::EitherInScript => "a script has no place for either text",
            LineFault::BehindLast => "a line without its line feed is the last one",
            LineFault::NotRepeated => "only lines of the script or of the output are repeated",
            LineFault::NoRepeat => "no `repeat` stands above",
            LineFault::NoDone => "`done` is missing",
        }
    }
}

impl fmt::Display for LineFault {
    fn fmt<W: fmt::Write>(&self, f: &mut fmt::Formatter<W>) -> fmt::Result {
        f.write_str(self.text())
    }
}

impl From<AllocError> for LineFault {
    fn from(_e: AllocError) -> LineFault {
        LineFault::Memory
    }
}

impl<T: Drop> From<AllocFailed<T>> for LineFault {
    fn from(_e: AllocFailed<T>) -> LineFault {
        LineFault::Memory
    }
}

/// The first wrong line of a row's file, counted from 1.
#[derive(Clone, Copy)]
pub struct RowFault {
    pub line: u64,
    pub fault: LineFault,
}
