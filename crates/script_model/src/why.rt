//! Why a line of a script is refused.

ghost use Rattle.std.specs.Prelude.{◌≡◌, ◌≤◌, Some, length};
ghost use Rattle.script_model.specs.Fields.{why_name};
ghost use Rattle.script_model.specs.Why.{why_of};

use std::fmt;

/// A field of a cell that is out of its limits.
#[derive(Clone, Copy, Debug, PartialEq, Eq)]
pub enum CellField {
    /// Not 1 to 32,767 bytes: `cell-1`.
    Row,
    /// Not 1 to 127 bytes: `cell-2`.
    Family,
    /// More than 32,767 bytes: `cell-3`.
    Qualifier,
    /// More than 65,536 bytes: `cell-4`.
    Value,
    /// 2^63 or more: `cell-5`.
    Timestamp,
    /// None of the five types: `cell-6`.
    Kind,
    /// More than 4,096 bytes: `cell-7`.
    Tags,
}

/// The cause for which a line is refused. It prints as the word in its comment.
#[derive(Clone, Copy, Debug, PartialEq, Eq)]
pub enum ScriptWhy {
    /// `word`: the first word is unknown or not allowed here, the number of words is wrong, or a put is neither
    /// `sync` nor `async`.
    Word,
    /// `number`: a field that is a number is none, or the number of a head line is out of its range.
    Number,
    /// `token`: a field that is a token is none.
    Token,
    /// `region`: a number that is none of the regions.
    Region,
    /// `handler`: a number that is none of the handlers.
    Handler,
    /// `count`: a put of no cells or of more than 1,024, a get of no version or of more than 1,000,000, another line where a
    /// cell is due, or a cell where none is.
    Count,
    /// `too-long`: a line of more than 524,288 bytes, or a script of more than 16,777,216.
    TooLong,
    /// `cell-1` to `cell-7`: a field of a cell is out of its limits.
    Cell(CellField),
    /// `not-here`: a right line that the command does not take: `log` a part of them, a run on several logs no get.
    NotHere,
    /// `entry-length`: with this cell the body of the put's log entry passes 1,048,576 bytes.
    EntryLength,
    /// `table-length`: a table's name of no bytes or of more than 255.
    TableLength,
}

impl ScriptWhy {
    /// How the cause is printed, in at most 12 bytes.
    pub fn name(self) -> &'static str
        ensures name { result.now ≡ why_name (why_of self) }
        ensures len { length result.now ≤ 12 }
    {
        match self {
            ScriptWhy::Word => "word",
            ScriptWhy::Number => "number",
            ScriptWhy::Token => "token",
            ScriptWhy::Region => "region",
            ScriptWhy::Handler => "handler",
            ScriptWhy::Count => "count",
            ScriptWhy::TooLong => "too-long",
            ScriptWhy::Cell(CellField::Row) => "cell-1",
            ScriptWhy::Cell(CellField::Family) => "cell-2",
            ScriptWhy::Cell(CellField::Qualifier) => "cell-3",
            ScriptWhy::Cell(CellField::Value) => "cell-4",
            ScriptWhy::Cell(CellField::Timestamp) => "cell-5",
            ScriptWhy::Cell(CellField::Kind) => "cell-6",
            ScriptWhy::Cell(CellField::Tags) => "cell-7",
            ScriptWhy::NotHere => "not-here",
            ScriptWhy::EntryLength => "entry-length",
            ScriptWhy::TableLength => "table-length",
        }
    }
}

impl fmt::Display for ScriptWhy {
    ghost output = { λ y. Some (why_name (why_of y)) };

    fn fmt<W: fmt::Write>(&self, f: &mut fmt::Formatter<W>) -> fmt::Result {
        f.write_str(self.name())
    }
}
