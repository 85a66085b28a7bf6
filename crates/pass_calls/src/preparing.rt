//! How the memory of an edit is taken.

ghost use Rattle.std.specs.Prelude.{◌≡◌, ℕ, ◌^◌, ◌<◌, ◌≤◌, IfOk};
ghost use Rattle.std.specs.Arc.{arc_value};
ghost use Rattle.region_model.specs.Lines.{pending};
ghost use Rattle.region_lock.specs.Jobs.{IsJob, line_of};

use entry_frame::encode_entry;
use kv_cell::{Batch, NoMemory};
use log_trucks::Truck;
use mem_segments::Draft;
use region_lock::Job;
use region_state::Caller;
use seq_accounting::FamilyMarks;
use std::alloc::Global;
use std::sync::Arc;

/// Takes all the memory of an edit of this region. Region 1 to 64; the time in milliseconds, at most 2^63 - 1.
pub fn prepare(
    alloc: Global,
    region: u32,
    caller: Caller,
    time: u64,
    batch: Batch,
) -> Result<Job, NoMemory>
    requires region { (1 ≤ region) × (region ≤ 64) }
    requires time { time < 2 ^ 63 }
    ensures job { IfOk result (λ job. IsJob region job) }
    ensures of { IfOk result (λ job. (n : ℕ) → line_of n job ≡ pending n caller time batch) }
{
    let bytes = encode_entry(alloc, region, 1, time, &batch)?;
    let marks = FamilyMarks::of_batch(alloc, &batch).map_err(|_| NoMemory)?;
    let batch = shared(alloc, batch)?;
    let draft = Draft::new(alloc, &batch)?;
    let truck = Box::new(
        alloc,
        Truck {
            region,
            number: 1,
            bytes,
            marks,
            next: None,
        },
    )
    .map_err(|_| NoMemory)?;
    Ok(Job {
        caller,
        time,
        batch,
        draft,
        truck,
    })
}

/// The batch, for several that share it.
fn shared(alloc: Global, batch: Batch) -> Result<Arc<Batch, Global>, NoMemory>
    ensures { IfOk result (λ it. arc_value it ≡ batch) }
{
    Arc::new(alloc, batch).map_err(|_| NoMemory)
}
