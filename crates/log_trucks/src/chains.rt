//! A chain of trucks for each region.

ghost use Rattle.std.specs.Prelude.{◌≡◌, ◌≤◌, [], ◌∷◌, ◌↔◌, List, IsTrue, IfOk, filter, replicate, slice_index_or, slice_set, length};
ghost use Rattle.std.specs.List.{flat_map};
ghost use Rattle.cell_model.specs.Merge.{at_number};
ghost use Rattle.log_model.specs.Entry.{Entry};
ghost use Rattle.log_trucks.specs.Held.{Held, AreHeld, IsSetTo, held_of};
ghost use Rattle.log_trucks.specs.Unflushed.{has_unflushed, unflushed_cells};

use crate::chain::Chain;
use crate::truck::Truck;
use kv_cell::{NoMemory, NumberedCells};
use seq_accounting::{Accounting, PLACES};
use std::alloc::Global;
use std::marker::Model;

/// Trucks by region, the newest of each first. Contracts see for each place 0 to 64 the list of numbers and bytes.
/// They are let go by loops, however long the chains are.
pub struct Chains {
    chains: Vec<Chain>,
}

/// By hand, as that of kv_cell's `Octets`: the crates above call it.
impl Drop for Chains {
    fn drop(self) {
        let Chains { chains: _ } = self;
    }
}

impl Model for Chains {
    ghost use Rattle.std.specs.Prelude.{◌≡◌, List, length};
    ghost use Rattle.log_trucks.specs.Held.{Held};

    ghost Value = { List (List Held) };

    ghost view = { λ c. c.chains.items };

    ghost invariant = { λ c. length c.chains.items ≡ 65 };
}

impl Chains {
    /// No truck in any chain.
    pub fn new(alloc: Global) -> Result<Chains, NoMemory>
        ensures { IfOk result (λ chains. chains ≡ replicate 65 []) }
    {
        let mut chains = Vec::with_capacity(alloc, PLACES)?;
        for _ in 0..PLACES {
            chains.push(Chain::new())?;
        }
        Ok(Chains { chains })
    }

    /// Puts a lone truck in front of its region's chain. It takes no memory, and its time doesn't grow with the chain.
    pub fn push(&mut self, truck: Box<Truck>)
        requires region { truck.value.region ≤ 64 }
        requires lone { truck.value.behind ≡ [] }
        ensures pushed { self.new ≡ slice_set self.old truck.value.region (held_of truck.value ∷ slice_index_or self.old truck.value.region []) }
        ensures places { length self.new ≡ 65 }
    {
        let region = truck.region as usize;
        self.chains[region].push(truck);
    }

    /// Whether the region's chain has no truck.
    pub fn is_empty(&self, region: u32) -> bool
        ensures { IsTrue result ↔ (slice_index_or self.now region [] ≡ []) }
    {
        match self.chains.get(region as usize) {
            Some(chain) => chain.is_empty(),
            None => true,
        }
    }

    /// The cells of the region's trucks that aren't flushed, newest truck first and each truck's cells in the order of its
    /// batch, each with its truck's number: those of one family, or all where it is empty. The accounting says what is
    /// flushed of each family of the region.
    pub fn cells(
        &self,
        alloc: Global,
        accounting: &Accounting,
        region: u32,
        family: &[u8],
    ) -> Result<NumberedCells, NoMemory>
        requires { region ≤ 64 }
        ensures { (es : List Entry) → AreHeld (slice_index_or self.now region []) es → IfOk result
            (λ cells. cells ≡ flat_map (λ e. at_number e.number (unflushed_cells accounting.now region family.now e)) es) }
    {
        self.chains[region as usize].cells(alloc, accounting, region, family)
    }

    /// Lets the region's trucks go of which each cell is flushed; the others stay, in order. It takes no memory.
    pub fn keep_unflushed(&mut self, accounting: &Accounting, region: u32)
        requires { region ≤ 64 }
        ensures kept { IsSetTo self.old self.new region (λ held. (es : List Entry) → AreHeld (slice_index_or self.old region []) es
            → AreHeld held (filter (has_unflushed accounting.now region) es)) }
        ensures places { length self.new ≡ 65 }
    {
        self.chains[region as usize].keep_unflushed(accounting, region);
    }

    /// Lets the region's trucks go, one after the other.
    pub fn clear(&mut self, region: u32)
        ensures { self.new ≡ slice_set self.old region [] }
    {
        if let Some(chain) = self.chains.get_mut(region as usize) {
            chain.clear();
        }
    }
}
