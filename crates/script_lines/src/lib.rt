//! The words of a script's lines: what each says, or the first thing that is wrong with it. Here stand the fields of a
//! line, head lines, and lines of calls; which line may come where is not decided here.
#![tactic(auto)]

mod calls;
mod faults;
mod fields;
mod flushes;
mod not_here;
mod numbers;
mod reads;
mod tokens;

pub use calls::{Spoken, call_line, counted_line, head_line};
pub use faults::{CellField, LineError, ScriptWhy};
pub use fields::{kind, sized, stamp};
pub use not_here::{here, kind_here};
pub use numbers::number;
pub use tokens::token;
