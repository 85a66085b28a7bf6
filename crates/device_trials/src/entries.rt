//! Devices on an empty disk, and the entries that they are given.

ghost use Rattle.std.specs.Prelude.{◌≡◌, ◌≤◌, ◌<◌, ◌^◌, [], IfOk, get_or};
ghost use Rattle.log_model.specs.Entry.{Entry};
ghost use Rattle.log_trucks.specs.Held.{Carries};
ghost use Rattle.log_ledger.specs.Numbers.{IsServed};
ghost use Rattle.log_device.specs.Whole.{numbers_of};

use crate::bench::Bench;
use disk_fakes::{Fail, MemDisk};
use entry_frame::encode_entry;
use kv_cell::{Batch, Cell};
use log_device::{DeviceFlush, DeviceRefusal, RegionBase, Truck};
use seq_accounting::FamilyMarks;
use std::alloc::Global;
use std::test::Fail as TestFail;

/// Regions 1 and 2, of which nothing is stored.
pub(crate) const TWO_REGIONS: [RegionBase; 2] = [
    RegionBase {
        region: 1,
        flushed: 0,
        next_store: 1,
    },
    RegionBase {
        region: 2,
        flushed: 0,
        next_store: 1,
    },
];

/// What a start answers. Neither the device nor the refusal is ever dropped, so that no exit of a trial writes out how: no trial
/// shows that.
pub(crate) type Started = Result<&'static mut Bench<MemDisk>, &'static mut DeviceRefusal<MemDisk>>;

/// A device with regions 1 and 2 on an empty disk whose calls of these kinds and numbers fail, or why there is none.
pub(crate) fn start(alloc: Global, fails: &[Fail]) -> Result<Started, TestFail> {
    let disk = MemDisk::new(alloc, fails)?;
    match Bench::start(alloc, disk, &TWO_REGIONS) {
        Ok(bench) => Ok(Ok(Box::leak(Box::new(alloc, bench)?))),
        Err(refusal) => Ok(Err(Box::leak(Box::new(alloc, refusal)?))),
    }
}

/// A device with regions 1 and 2 on an empty disk.
pub(crate) fn two_regions(alloc: Global) -> Result<&'static mut Bench<MemDisk>, TestFail> {
    match start(alloc, &[])? {
        Ok(bench) => Ok(bench),
        Err(_) => Err(TestFail::new("the device does not start")),
    }
}

/// The value that is put into a region: `v` into region 1, `w` into region 2.
pub(crate) fn value_of(region: u32) -> &'static [u8] {
    if region == 1 { b"v" } else { b"w" }
}

/// One put of row `r`, column `f:q`, with the edit's number as timestamp, so that edits 1 of region 1 are one and the same.
pub(crate) fn one_put(alloc: Global, region: u32, number: u64) -> Result<Batch, TestFail> {
    let mut cells = Vec::new(alloc);
    cells.push(Cell::new(alloc, b"r", b"f", b"q", number, 4, value_of(region))?)?;
    Ok(Batch::new(cells)?)
}

/// A lone truck with an entry of these cells, written at 1000.
pub(crate) fn truck(
    alloc: Global,
    region: u32,
    number: u64,
    batch: &Batch,
) -> Result<Box<Truck>, TestFail>
    requires given { 1 ≤ region }
    requires region { region ≤ 64 }
    requires number_given { 1 ≤ number }
    requires number { number < 2 ^ 48 }
    ensures region { IfOk result (λ t. t.value.region ≡ region) }
    ensures number { IfOk result (λ t. t.value.number ≡ number) }
    ensures alone { IfOk result (λ t. t.value.behind ≡ []) }
    ensures entry { IfOk result (λ t. ∥ ((e : Entry) × Carries t.value e) ∥₁) }
{
    let marks = FamilyMarks::of_batch(alloc, batch)?;
    let bytes = encode_entry(alloc, region, number, 1000, batch)?;
    let truck = Truck {
        region,
        number,
        bytes,
        marks,
        next: None,
    };
    Ok(Box::new(alloc, truck)?)
}

/// The number of the region's next edit, where the device has the region.
pub(crate) fn next_number(bench: &Bench<MemDisk>, region: u32) -> Result<u64, TestFail>
    ensures region { IfOk result (λ n. (1 ≤ region) × (region ≤ 64)) }
    ensures served { IfOk result (λ n. IsServed (numbers_of bench.now.device) region) }
    ensures number { IfOk result (λ n. (1 ≤ n) × (n < 2 ^ 48)) }
    ensures above { IfOk result (λ n. get_or (numbers_of bench.now.device).drawn region 0 < n) }
{
    if region == 0 || region > 64 || bench.device.ledger().next_store(region) == 0 {
        return Err(TestFail::new("no such region"));
    }
    let number = bench.device.ledger().drawn(region) + 1;
    if number >= 1 << 48 {
        return Err(TestFail::new("no number is left"));
    }
    Ok(number)
}

/// Stages the next edit of a region, and gives its number, or None where the stage is full.
pub(crate) fn stage_put(
    alloc: Global,
    bench: &mut Bench<MemDisk>,
    region: u32,
) -> Result<Option<u64>, TestFail> {
    let number = next_number(bench, region)?;
    let batch = one_put(alloc, region, number)?;
    match bench.stage(truck(alloc, region, number, &batch)?) {
        Ok(()) => Ok(Some(number)),
        Err(_) => Ok(None),
    }
}

/// Flushes a region that the device has, or one family of it, whose name is one byte.
pub(crate) fn flush(
    alloc: Global,
    bench: &mut Bench<MemDisk>,
    region: u32,
    family: Option<u8>,
) -> Result<Result<u64, DeviceFlush>, TestFail> {
    next_number(bench, region)?;
    match family {
        None => Ok(bench.flush(alloc, region, None)),
        Some(byte) => Ok(bench.flush(alloc, region, Some(&[byte]))),
    }
}
