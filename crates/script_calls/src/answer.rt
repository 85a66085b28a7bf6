//! What a call of a script is answered.

use mem_segments::SharedCells;

/// One variant for each form of answer that a reply line may have.
#[derive(Debug, Drop)]
pub enum Answer {
    /// The put's edit has this number.
    PutOk { number: u64 },
    /// Out of memory, before an edit was begun.
    PutMemory,
    /// Out of memory, after the edit with this number was done.
    PutMemoryAt { number: u64 },
    /// The log is broken, and no edit was begun.
    PutFault,
    /// The edit with this number failed.
    PutFaultAt { number: u64 },
    /// No number is left above the region's last one.
    PutSpent { last: u64 },
    /// The cells that are seen at this point, shared with the region's segments.
    Scanned { point: u64, cells: SharedCells },
    ScanMemory,
    /// The puts of the row that a reader sees at this point, shared with the region's segments.
    Got { point: u64, cells: SharedCells },
    GetMemory,
    /// The region is flushed up to this number.
    FlushOk { number: u64 },
    /// Nothing stood above this number.
    FlushNothing { number: u64 },
    /// This call's flush of the region is under way.
    FlushBusy { handler: u32, call: u32 },
    FlushFault,
    FlushMemory,
    /// The file that was closed, and how many entries it has.
    RollOk { file: u64, entries: u64 },
    /// The file has no entry and stays.
    RollNothing { file: u64 },
    RollFault,
    RollMemory,
}
