//! What a report says of what a server's call answered.

ghost use Rattle.std.specs.Prelude.{◌≡◌, IfOk, true, false};
ghost use Rattle.cell_model.specs.Merge.{IsRising};
ghost use Rattle.script_calls.specs.Answers.{answer_of, is_got};
ghost use Rattle.script_handlers.specs.Getting.{IsGetOf};
ghost use Rattle.handler_threads.specs.region_calls.Answers.{put_answer, scan_answer, flush_answer, roll_answer};

use handler_threads::region_calls::{FlushRefusal, PutRefusal, RollRefusal, Rolled, ScanReply};
use kv_cell::NoMemory;
use region_state::Caller;
use row_reader::mask;
use script_calls::Answer;
use std::alloc::Global;

/// Of a put.
pub fn of_put(reply: Result<u64, PutRefusal>) -> Answer
    ensures answer { answer_of result ≡ put_answer reply }
    ensures got { is_got result ≡ false }
{
    match reply {
        Ok(number) => Answer::PutOk { number },
        Err(PutRefusal::Memory { logged: None }) => Answer::PutMemory,
        Err(
            PutRefusal::Memory {
                logged: Some(number),
            },
        ) => Answer::PutMemoryAt { number },
        Err(PutRefusal::WriteFault { number: None }) => Answer::PutFault,
        Err(
            PutRefusal::WriteFault {
                number: Some(number),
            },
        ) => Answer::PutFaultAt { number },
        Err(PutRefusal::NumbersSpent { last }) => Answer::PutSpent { last },
    }
}

/// Of a scan.
pub fn of_scan(reply: Result<ScanReply, NoMemory>) -> Answer
    ensures answer { answer_of result ≡ scan_answer reply }
    ensures got { is_got result ≡ false }
{
    match reply {
        Ok(ScanReply { point, cells }) => Answer::Scanned { point, cells },
        Err(NoMemory) => Answer::ScanMemory,
    }
}

/// Of a get of so many versions, by the scan of its row: the cells that a reader sees are shared.
pub fn of_get(alloc: Global, versions: u32, scanned: Result<ScanReply, NoMemory>) -> Answer
    requires order { IfOk scanned (λ reply. IsRising reply.cells) }
    ensures gets { IsGetOf versions scanned (answer_of result) }
    ensures got { is_got result ≡ true }
{
    let Ok(ScanReply { point, cells }) = scanned else {
        return Answer::GetMemory;
    };
    match mask(alloc, cells.as_slice(), u64::from(versions)) {
        Ok(cells) => Answer::Got { point, cells },
        Err(NoMemory) => Answer::GetMemory,
    }
}

/// Of a flush.
pub fn of_flush(reply: Result<u64, FlushRefusal>) -> Answer
    ensures answer { answer_of result ≡ flush_answer reply }
    ensures got { is_got result ≡ false }
{
    match reply {
        Ok(number) => Answer::FlushOk { number },
        Err(FlushRefusal::Memory) => Answer::FlushMemory,
        Err(FlushRefusal::WriteFault) => Answer::FlushFault,
        Err(FlushRefusal::Nothing { flushed }) => Answer::FlushNothing { number: flushed },
        Err(
            FlushRefusal::Flushing {
                by: Caller { handler, call },
            },
        ) => Answer::FlushBusy { handler, call },
    }
}

/// Of a roll.
pub fn of_roll(reply: Result<Rolled, RollRefusal>) -> Answer
    ensures answer { answer_of result ≡ roll_answer reply }
    ensures got { is_got result ≡ false }
{
    match reply {
        Ok(Rolled { closed, entries }) => Answer::RollOk {
            file: closed,
            entries,
        },
        Err(RollRefusal::Memory) => Answer::RollMemory,
        Err(RollRefusal::WriteFault) => Answer::RollFault,
        Err(RollRefusal::NothingToRoll { file }) => Answer::RollNothing { file },
    }
}
