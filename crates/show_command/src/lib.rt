//! The command `show`: prints the cells that log 1 holds, by region, in order.
#![tactic(auto)]

mod command;
mod regions;
mod text;

pub use command::show;
