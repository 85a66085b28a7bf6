//! Entries that are pushed.

ghost use Rattle.std.specs.Prelude.{◌≡◌, ◌≤◌, ◌<◌, ◌^◌, [], IfSome};
ghost use Rattle.log_trucks.specs.Held.{held_of};
ghost use Rattle.log_service.specs.Trucks.{IsSpelled};
ghost use Rattle.seq_accounting.specs.Accounts.{AreFamiliesOf};

use crate::cells::batch_of;
use entry_frame::encode_entry;
use kv_cell::Batch;
use log_trucks::Truck;
use seq_accounting::FamilyMarks;
use std::alloc::Global;

/// The families of a batch's cells.
fn marks_of(alloc: Global, batch: &Batch) -> Option<FamilyMarks>
    ensures { IfSome result (λ marks. AreFamiliesOf batch.now.cells marks) }
{
    FamilyMarks::of_batch(alloc, batch).ok()
}

/// A lone truck with an edit of these cells, written at 1000.
fn load(alloc: Global, region: u32, number: u64, batch: &Batch) -> Option<Truck>
    requires region { (1 ≤ region) × (region ≤ 64) }
    requires given { 1 ≤ number }
    requires number { number < 2 ^ 48 }
    ensures region { IfSome result (λ t. t.region ≡ region) }
    ensures number { IfSome result (λ t. t.number ≡ number) }
    ensures alone { IfSome result (λ t. t.behind ≡ []) }
    ensures spelled { IfSome result (λ t. IsSpelled (held_of t)) }
{
    let marks = marks_of(alloc, batch)?;
    let bytes = encode_entry(alloc, region, number, 1000, batch).ok()?;
    Some(Truck {
        region,
        number,
        bytes,
        marks,
        next: None,
    })
}

/// A lone truck with an edit of this region, written at 1000.
pub(crate) fn truck(alloc: Global, region: u32, number: u64) -> Option<Box<Truck>>
    requires region { (1 ≤ region) × (region ≤ 64) }
    requires given { 1 ≤ number }
    requires number { number < 2 ^ 48 }
    ensures region { IfSome result (λ t. t.value.region ≡ region) }
    ensures number { IfSome result (λ t. t.value.number ≡ number) }
    ensures alone { IfSome result (λ t. t.value.behind ≡ []) }
    ensures spelled { IfSome result (λ t. IsSpelled (held_of t.value)) }
{
    let batch = batch_of(alloc, b"r")?;
    let load = load(alloc, region, number, &batch)?;
    let truck = Box::new(alloc, load).ok()?;
    Some(truck)
}
