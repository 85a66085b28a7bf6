//! The words of the command `load`, read by `clap`.
#![tactic(auto)]

mod command;
mod numbers;
mod words;

pub use words::{WordsRefusal, read_load};
