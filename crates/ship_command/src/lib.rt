//! The command `ship`: prints the entries that stand after a position in a store's logs, for a program that follows the store,
//! and between them the positions that this program records. `SinkPeer` is the peer of `ship_queue` that prints what it is shipped.
#![tactic(auto)]

mod cells;
mod command;
mod entries;
mod held;
mod sink_peer;
mod tokens;
mod words;

pub use command::ship;
pub use log_tail::Position;
pub use sink_peer::SinkPeer;
pub use words::read_position;
