//! What the consumer hands to the device.
ghost use Rattle.std.specs.Prelude.{◌≡◌, ◌≤◌, ◌<◌, ◌+◌, ◌↔◌, ◌++◌, [], ◌∷◌, length, IsTrue};
ghost use Rattle.log_trucks.specs.Held.{held_of};
ghost use Rattle.log_halves.specs.Trucks.{size_of};

use append_ring::OfRegion;
use log_file::STAGE_BYTES;
use log_trucks::{Chain, Truck};
use std::marker::Model;

/// Trucks on their way from the ring to the log's device, with the bytes that they take of a stage, each with one gate byte, and their
/// number. Contracts see the trucks, in the order in which they were put in.
#[derive(Drop)]
pub struct FrameChain {
    // The last one put in stands first.
    trucks: Chain,
    bytes: u64,
    entries: u64,
}

impl Model for FrameChain {
    ghost use Rattle.std.specs.Prelude.{◌≡◌, ◌≤◌, List, length, reverse};
    ghost use Rattle.log_trucks.specs.Held.{Held};
    ghost use Rattle.log_halves.specs.Trucks.{IsMeasured};

    ghost Value = { List Held };

    ghost view = { λ l. reverse l.trucks };

    ghost invariant = { λ l. IsMeasured l.bytes l.entries (reverse l.trucks) };
}

impl OfRegion for FrameChain {
    ghost use Rattle.std.specs.Prelude.{None};
    ghost use Rattle.log_halves.specs.Chains.{IsWholeChain, AreInOrder};
    ghost use Rattle.log_halves.specs.Order.{front_in_order};

    ghost place = { λ _. 1 };

    ghost number = { λ _. None };

    ghost is_whole = { IsWholeChain };

    ghost in_order = { AreInOrder };

    fn region(&self) -> u32 {
        1
    }

    fn drawn(&self) -> Option<u64> {
        None
    }

    ghost order_empty = { λ lasts. tt };

    ghost order_front = { front_in_order };
}

impl FrameChain {
    /// No truck.
    pub(crate) fn new() -> FrameChain
        ensures { result ≡ [] }
    {
        FrameChain {
            trucks: Chain::new(),
            bytes: 0,
            entries: 0,
        }
    }

    /// How many trucks there are.
    pub(crate) fn len(&self) -> u64
        ensures len { result ≡ length self.now }
        ensures size { size_of self.now ≤ 4194304 }
    {
        self.entries
    }

    /// Whether a truck with so many bytes doesn't fit.
    pub(crate) fn is_full_for(&self, len: usize) -> bool
        ensures { IsTrue result ↔ (4194304 < size_of self.now + len + 1) }
    {
        len as u64 >= STAGE_BYTES as u64 - self.bytes
    }

    /// Puts a lone truck in, for which there is room. It takes no memory.
    pub(crate) fn push(&mut self, truck: Box<Truck>)
        requires alone { truck.value.behind ≡ [] }
        requires room { size_of self.old + length truck.value.bytes + 1 ≤ 4194304 }
        ensures { self.new ≡ self.old ++ held_of truck.value ∷ [] }
    {
        self.bytes += len_of(&truck) as u64 + 1;
        self.entries += 1;
        self.trucks.push(truck);
    }

    /// The trucks as a chain, the first one first.
    pub(crate) fn into_chain(self) -> Chain
        ensures { result ≡ self }
    {
        self.trucks.reversed()
    }
}

/// How many bytes a truck has.
pub(crate) fn len_of(truck: &Truck) -> usize
    ensures len { result ≡ length truck.now.bytes }
    ensures within { result ≤ 1048581 }
{
    truck.bytes.len()
}
