//! A system in memory, for tests: it tells what it holds, fails where it is told to, and shows what a crash may leave.
//! It writes nothing to a real disk.
#![tactic(auto)]

mod crash;
mod fake_file;
mod fake_system;
mod history;
mod image;
mod image_table;
mod op;
mod piece;
mod plan;
mod table;

pub use fake_file::FakeFile;
pub use fake_system::FakeSystem;
pub use plan::{Failing, Fate};
