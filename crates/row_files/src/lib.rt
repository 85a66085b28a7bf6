//! Worked rows kept as data: what a row's file says, and in what a run of it differs.
//!
//! A row is text, one item a line: the words of a call of the program, its script, the calls of the outside that fail in
//! it, and what it must print and leave. `docs/ROWS.md` has the form. No clause speaks of what a file holds: a proof here
//! says that reading and comparing are safe and end, whatever the text.
#![tactic(auto)]

mod compare;
mod fault;
mod hexadecimal;
mod matching;
mod output;
mod piece;
mod reader;
mod repeated;
mod row;
mod row_lines;
mod showing;
mod words;

pub use compare::{Found, add_differences};
pub use fault::{LineFault, RowFault};
pub use output::{Difference, ExpectedLine};
pub use piece::Piece;
pub use reader::read_row;
pub use row::{
    Base, ExpectedFile, ExpectedNames, FallibleCall, PlannedFail, Row, Step, StoredFile,
};
