//! A chain of trucks.

ghost use Rattle.std.specs.Prelude.{◌≡◌, ◌≤◌, ◌++◌, ◌&&◌, [], ◌∷◌, ◌↔◌, List, filter, reverse, IsTrue, IfOk, IfSome, MatchOption, OnOk};
ghost use Rattle.std.specs.List.{flat_map, list_any};
ghost use Rattle.cell_model.specs.Merge.{at_number};
ghost use Rattle.log_model.specs.Entry.{Entry};
ghost use Rattle.log_model.specs.Frame.{StartsCells};
ghost use Rattle.entry_frame.specs.Body.{form_of_kind};
ghost use Rattle.seq_accounting.specs.Accounts.{is_for};
ghost use Rattle.log_trucks.specs.Held.{AreHeld, IsHeld, held_of};
ghost use Rattle.log_trucks.specs.Unflushed.{is_unflushed, has_unflushed, unflushed_cells};

use crate::truck::Truck;
use kv_cell::{Cell, Form, NoMemory, NumberedCells, decode_in};
use seq_accounting::Accounting;
use std::alloc::Global;
use std::marker::Model;

/// Trucks, the one put in last first. Contracts see the list of regions, numbers and bytes. They are let go by a loop,
/// however many they are.
pub struct Chain {
    first: Option<Box<Truck>>,
}

/// By hand, as that of kv_cell's `Octets`: the crates above call it.
impl Drop for Chain {
    fn drop(self) {
        let Chain { first: _ } = self;
    }
}

impl Model for Chain {
    ghost use Rattle.std.specs.Prelude.{List};
    ghost use Rattle.log_trucks.specs.Held.{Held};

    ghost Value = { List Held };

    ghost use Rattle.log_trucks.specs.Links.{linked};

    ghost view = { λ c. linked c.first };
}

impl Chain {
    /// No truck.
    pub fn new() -> Chain
        ensures { result ≡ [] }
    {
        Chain { first: None }
    }

    /// Whether there is no truck.
    pub fn is_empty(&self) -> bool
        ensures { IsTrue result ↔ (self.now ≡ []) }
    {
        self.first.is_none()
    }

    /// Puts a lone truck in front. It takes no memory.
    pub fn push(&mut self, truck: Box<Truck>)
        requires { truck.value.behind ≡ [] }
        ensures { self.new ≡ held_of truck.value ∷ self.old }
    {
        let mut truck = truck;
        truck.next = self.first.take();
        self.first = Some(truck);
    }

    /// Takes the first truck, alone.
    pub fn pop(&mut self) -> Option<Box<Truck>>
        ensures first { MatchOption result ((self.old ≡ []) × (self.new ≡ [])) (λ truck. self.old ≡ held_of truck.value ∷ self.new) }
        ensures alone { IfSome result (λ truck. truck.value.behind ≡ []) }
    {
        let mut truck = self.first.take()?;
        self.first = truck.next.take();
        Some(truck)
    }

    /// The trucks in the other order. It takes no memory.
    pub fn reversed(self) -> Chain
        ensures { result ≡ reverse self }
    {
        let mut rest = self;
        let mut turned = Chain::new();
        while let Some(truck) = rest.pop() {
            turned.push(truck);
        }
        turned
    }

    /// Lets all trucks go, one after the other.
    pub fn clear(&mut self)
        ensures { self.new ≡ [] }
    {
        self.first = None;
    }

    /// The cells of the trucks that aren't flushed, each with its truck's number, in the order of the chain: those of one
    /// family, or all where it is empty. The accounting says what is flushed of each family of the region.
    pub fn cells(
        &self,
        alloc: Global,
        accounting: &Accounting,
        region: u32,
        family: &[u8],
    ) -> Result<NumberedCells, NoMemory>
        requires { region ≤ 64 }
        ensures { (es : List Entry) → AreHeld self.now es → IfOk result
            (λ cells. cells ≡ flat_map (λ e. at_number e.number (unflushed_cells accounting.now region family.now e)) es) }
    {
        let mut cells = NumberedCells::new(alloc);
        let mut link = &self.first;
        while let Some(truck) = link {
            let batch = truck.bytes.to_batch(alloc)?;
            append(
                &mut cells,
                accounting,
                region,
                family,
                truck.number,
                batch.into_vec(),
            )?;
            link = &truck.next;
        }
        Ok(cells)
    }

    /// Lets the trucks go of which each cell is flushed; the others stay, in order. It takes no memory.
    pub fn keep_unflushed(&mut self, accounting: &Accounting, region: u32)
        requires { region ≤ 64 }
        ensures { (es : List Entry) → AreHeld self.old es → AreHeld self.new (filter (has_unflushed accounting.now region) es) }
    {
        let mut kept = Chain::new();
        while let Some(truck) = self.pop() {
            if is_left(&truck, accounting, region) {
                kept.push(truck);
            }
        }
        *self = kept.reversed();
    }
}

/// Appends the cells of one edit that aren't flushed.
fn append(
    all: &mut NumberedCells,
    accounting: &Accounting,
    region: u32,
    family: &[u8],
    number: u64,
    cells: Vec<Cell>,
) -> Result<(), NoMemory>
    requires { region ≤ 64 }
    ensures { OnOk result (all.new ≡ all.old ++ at_number number
        (filter (λ c. is_for family.now c.family && is_unflushed accounting.now region number c) cells.items)) }
{
    for cell in cells {
        let is_for = family.is_empty() || family == cell.family.as_slice();
        if is_for && number > accounting.flushed(region, cell.family.as_slice()) {
            all.push(number, cell)?;
        }
    }
    Ok(())
}

/// Whether a cell of the truck's entry isn't flushed. It takes no memory.
fn is_left(truck: &Truck, accounting: &Accounting, region: u32) -> bool
    requires { region ≤ 64 }
    ensures { (e : Entry) → IsHeld (held_of truck.now) e → result ≡ has_unflushed accounting.now region e }
{
    let entry = truck.bytes.entry();
    let form = form_of(entry.kind);
    any_left(
        accounting,
        region,
        truck.number,
        form,
        entry.cells,
        entry.count,
    )
}

/// Whether one of as many cells as stand in the bytes, of an entry of this number, isn't flushed.
fn any_left(
    accounting: &Accounting,
    region: u32,
    number: u64,
    form: Form,
    bytes: &[u8],
    count: u32,
) -> bool
    requires region { region ≤ 64 }
    requires cells { StartsCells form bytes.now count [] }
    ensures { (s : StartsCells form bytes.now count []) → result ≡ list_any (is_unflushed accounting.now region number) s.cells }
{
    let mut rest = bytes;
    for _ in 0..count {
        let Ok((cell, len)) = decode_in(form, rest) else {
            unreachable!();
        };
        if number > accounting.flushed(region, cell.family) {
            return true;
        }
        rest = &rest[len..];
    }
    false
}

/// How the cells of an entry in a frame of this kind are spelled.
fn form_of(kind: u8) -> Form
    ensures { result ≡ form_of_kind kind }
{
    if kind == 3 { Form::Tagged } else { Form::Plain }
}
