//! Scripts, read from their text: exactly the texts of the grammar are taken, each with exactly what it says, and
//! any other is refused with its first wrong line and that line's cause. What a script does when it is run is not
//! decided here.
#![tactic(auto)]

mod cells;
mod faults;
mod filling;
mod grouping;
mod parse;
mod pieces;
mod saying;
mod state;
mod table;
mod walk;

pub use faults::{CellField, ParseRefusal, ScriptWhy};
pub use parse::parse_script;
pub use script_calls::{Call, CallList, HandlerList, Script};
pub use script_lines::number;
pub use script_model::Command;
