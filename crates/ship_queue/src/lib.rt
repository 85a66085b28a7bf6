//! Ships a log's entries to a peer, as HBase replicates its logs: `ship_all` reads what stands after a position and ships it in
//! order, and the peer records how far it has come. A call that begins at the recorded position ships no entry twice that
//! stands before it, and leaves none out. Begin at `shipping`. A peer is whatever meets `Peer`: `MemPeer` keeps what it is
//! shipped in memory, and `SinkPeer` of ship_command prints it.
#![tactic(auto)]

mod error;
mod gate;
mod item;
mod laws;
mod memory_peer;
mod peer;
mod reading;
mod reading_half;
mod rounds;
mod sending;
mod shipping;
mod shipping_half;

pub use error::{ShipRefusal, Shipped};
pub use laws::{part_ship_is_a_step, ship_is_a_part_ship};
pub use log_tail::Position;
pub use memory_peer::{MemPeer, ShippedEntry};
pub use peer::Peer;
pub use shipping::ship_all;
