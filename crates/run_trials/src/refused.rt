//! Trials of a run, of an opening and of a close to which memory may be refused, over a disk, a source and sinks that take
//! none once they are made. With ample memory each is a plain test; `tools/refusals` runs each once for each allocation,
//! and has that one refused.

mod bench;
mod closing;
mod opening;
mod report;
mod running;
