//! Scripts and their calls, the answers to these calls, and the report of a run: what the reader of scripts gives, what a
//! run takes and answers, and what is printed of it. Nothing is read, carried out or printed here.
#![tactic(auto)]

mod answer;
mod call;
mod reply;
mod report;
mod script;

pub use answer::Answer;
pub use call::{Call, CallList};
pub use reply::{ReplyLine, ReplyLines};
pub use report::{EditLine, EditLines, RegionLine, RegionLines, Report};
pub use script::{HandlerList, Script};
