//! What the program prints: reports of runs, the lines of the other commands, and the lines that refuse.
//! It writes bytes to memory and reads nothing back; the outputs are not sent anywhere.
#![tactic(auto)]

mod cells;
mod edits;
mod laws;
mod names;
mod refusal;
mod refusal_lines;
mod replies;
mod report;
mod short_line;
mod tokens;
mod words;

pub use cells::{append_cell, append_cells, append_region};
pub use laws::{one_reading, tokens_read_again};
pub use names::append_name;
pub use refusal::Refusal;
pub use refusal_lines::refusal_line;
pub use replies::{append_end, append_reply, end_line, reply_line, write_replies};
pub use report::write_report;
pub use script_calls::{
    Answer, EditLine, EditLines, RegionLine, RegionLines, ReplyLine, ReplyLines, Report,
};
pub use short_line::Line;
pub use tokens::append_token;
pub use words::{append, append_number, append_numbers};
