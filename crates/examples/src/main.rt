//! Examples of hwal as a library, each a module: a log file in a real folder (log.rt), one region in memory (region.rt), a
//! disk of one's own (disk.rt) under a log file (small_disk.rt), a whole server (server.rt, clerk.rt, reader.rt), and each call of
//! a handler's session (visitor.rt).
//!
//! What to know of Rattle to read them: memory can run out, so what allocates is passed an allocator and gives a `Result`. What
//! the outside has (files, threads, printing) is reached through `rt`, which `main` gets. `ensures` says what a function
//! promises and `requires` what its caller owes; both are proved when the file is compiled, and cost nothing when it runs.
//! `state.old` is the value after a `&mut` at the call, `state.new` that at the return.
#![tactic(auto)]

mod clerk;
mod disk;
mod log;
mod reader;
mod region;
mod server;
mod small_disk;
mod visitor;

use anyhow::Result;

fn main(rt: HostRuntime) -> Result<()> {
    log::print_durable_entries(&rt)?;
    region::print_two_versions(&rt)?;
    small_disk::print_full_disk(&rt)?;
    server::print_persons(&rt)?;
    visitor::print_answers(&rt)
}
