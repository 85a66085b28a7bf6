//! A reader that goes along a store's logs while they are written, as HBase's replication does: from a position on, log after
//! log, it gives each entry once, and says where it stops. It never changes the store, and needs no word of its writer.
//!
//! Begin at `Tail`. `ship_queue` hands what it reads to a peer. A log counts only if it is whole: each read checks it from its
//! first byte, so the cost of a read is linear in the length of the log.
#![tactic(auto)]

mod finding;
mod laws;
mod position;
mod reading;
mod refusal;
mod tail;

pub use laws::{fit_files_have_a_chronicle, reading_goes_on, texts_have_a_chronicle};
pub use position::Position;
pub use refusal::TailRefusal;
pub use tail::Tail;
