//! What a seat knows of its berth.
use std::collections::LinkedList;

/// What a seat knows. No value of it is made.
///
/// `parts` are its parts of the right to close: 1 for each seat that is handed out. With the `turn` it may raise and break. `seen` are
/// numbers that the synced words had reached, region 1 first; with the turn they are the words. Where it is `broken` the fault word was
/// seen set, and `last` are the numbers that stand.
pub struct Known {
    pub parts: u64,
    pub turn: bool,
    pub seen: LinkedList<u64>,
    pub broken: bool,
    pub last: LinkedList<u64>,
    pub tally: Tally,
}

/// How often the seat loaded the fault word and tried for the turn, and what the turn word was at its last try. Only steps change it.
pub struct Tally {
    pub looks: u64,
    pub tries: u64,
    pub found: u64,
}

/// What a table of a berth is told once: how many regions and seats there are, and the words at the start.
#[derive(Drop)]
pub struct Plan {
    pub regions: u32,
    pub seats: u32,
    pub words: Vec<u64>,
}
