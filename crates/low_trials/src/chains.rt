//! Chains of many trucks.

ghost use Rattle.std.specs.Prelude.{◌≡◌, ◌≤◌, ◌<◌, ◌^◌, [], IfOk};

use crate::edits::batch_of;
use entry_frame::encode_entry;
use kv_cell::Batch;
use log_trucks::{Chains, Truck};
use seq_accounting::{Accounting, FamilyMarks};
use std::alloc::Global;
use std::test::*;

/// A lone truck with an entry of these cells.
fn truck(alloc: Global, region: u32, number: u64, batch: &Batch) -> Result<Box<Truck>, Fail>
    requires given { 1 ≤ region }
    requires region { region ≤ 64 }
    requires number_given { 1 ≤ number }
    requires number { number < 2 ^ 48 }
    ensures { IfOk result (λ t. (t.value.region ≡ region) × (t.value.behind ≡ [])) }
{
    let bytes = encode_entry(alloc, region, number, 1000, batch)?;
    let truck = Truck {
        region,
        number,
        bytes,
        marks: FamilyMarks::none(),
        next: None,
    };
    Ok(Box::new(alloc, truck)?)
}

/// Pushes 100,000 trucks of each of two regions. Their cells are never dropped: no trial shows how.
fn fill(alloc: Global, chains: &mut Chains) -> Result<(), Fail> {
    let batch = batch_of(alloc, b"r")?;
    let batch: &'static Batch = Box::leak(Box::new(alloc, batch)?);
    for number in 1..100_001 {
        chains.push(truck(alloc, 1, number, batch)?);
        chains.push(truck(alloc, 2, number, batch)?);
    }
    Ok(())
}

/// Keeps what isn't flushed of the first region, which is all, and tells how many cells that are. The accounting is never
/// dropped: no trial shows how.
fn keep_first(alloc: Global, chains: &mut Chains) -> Result<usize, Fail> {
    let accounting: &'static mut Accounting = Box::leak(Box::new(
        alloc,
        Accounting::new(alloc, &[])?,
    )?);
    chains.keep_unflushed(accounting, 1);
    Ok(chains.cells(alloc, accounting, 1, &[])?.len())
}

/// Whether both chains are filled, the first one is read, and it alone is let go then.
fn is_let_go(alloc: Global, chains: &mut Chains) -> Result<bool, Fail> {
    fill(alloc, chains)?;
    let cells = keep_first(alloc, chains)?;
    chains.clear(1);
    Ok(cells == 100_000 && chains.is_empty(1) && !chains.is_empty(2))
}

/// The same of chains that go with their other trucks.
fn are_let_go(alloc: Global) -> Result<bool, Fail> {
    let mut chains = Chains::new(alloc)?;
    is_let_go(alloc, &mut chains)
}

#[test]
fn chain_of_100000_trucks_is_let_go(rt: HostRuntime) -> Result<(), Fail> {
    assert!(rt; are_let_go(rt.alloc())?);
    Ok(())
}
