//! Writing output.

ghost use Rattle.std.specs.Prelude.{◌≡◌, ◌≢◌, ◌≤◌, ◌++◌, ◌⊎◌, ℕ, List, Some, IsTrue, IsErr, option_map};
ghost use Rattle.disk_images.specs.Calls.{Rose};
ghost use Rattle.command_base.specs.Prints.{Prints};
ghost use Rattle.report_text.specs.Refusals.{refusal_text};
ghost use Rattle.command_base.specs.Status.{refusal_line};

use crate::status::Status;
use disk_images::{Failed, Sink};
use log_model::Damage;
use report_text::{Refusal, refusal_line};

/// Writes all of the bytes.
pub fn write_all<K: Sink>(sink: &mut K, bytes: &[u8]) -> Result<(), Failed>
    ensures prints { IsTrue K.told → Prints (K.taken sink.old) (K.taken sink.new) bytes.now (IsErr result) }
    ensures later { K.faults sink.old ≤ K.faults sink.new }
    ensures cause { IsErr result → Rose (K.faults sink.old) (K.faults sink.new) }
{
    let mut rest = bytes;
    while !rest.is_empty() {
        let n = sink.write(rest)?;
        rest = &rest[n..];
    }
    Ok(())
}

/// Writes the output of a command that ends so, unless the sink fails.
pub fn emit<K: Sink>(sink: &mut K, text: &[u8], status: Status) -> Status
    ensures either { result ≡ status ⊎ result ≡ Status.SinkFault }
    ensures prints { IsTrue K.told → status ≢ Status.SinkFault → Prints (K.taken sink.old) (K.taken sink.new) text.now (result ≡ Status.SinkFault) }
    ensures later { K.faults sink.old ≤ K.faults sink.new }
    ensures cause { result ≡ Status.SinkFault → status ≢ Status.SinkFault → Rose (K.faults sink.old) (K.faults sink.new) }
{
    match write_all(sink, text) {
        Ok(()) => status,
        Err(_) => Status::SinkFault,
    }
}

/// Writes the one line of a command that is refused. Whether it could be written doesn't change the status.
pub fn refuse<K: Sink>(sink: &mut K, status: Status) -> Status
    ensures status { result ≡ status }
    ensures prints { IsTrue K.told → (text : List ℕ) → refusal_line status ≡ Some text
        → Prints (K.taken sink.old) (K.taken sink.new) text (Rose (K.faults sink.old) (K.faults sink.new)) }
    ensures later { K.faults sink.old ≤ K.faults sink.new }
{
    if let Some(refusal) = refusal_of(status) {
        let line = refusal_line(&refusal);
        let _ = write_all(sink, line.as_slice());
    }
    status
}

/// The refusal that a status stands for.
fn refusal_of(status: Status) -> Option<Refusal>
    ensures { refusal_line status ≡ option_map refusal_text result }
{
    Some(match status {
        Status::Memory => Refusal::Memory,
        Status::Usage => Refusal::Usage,
        Status::Script { line, why } => Refusal::Script { line, why },
        Status::SourceFault => Refusal::Source,
        Status::DiskFault => Refusal::Disk,
        Status::Damaged(Damage::Bytes { name, at }) => Refusal::Damaged { name, at },
        Status::Damaged(
            Damage::Two {
                first,
                second,
                region,
                number,
            },
        ) => Refusal::Disagree {
            first,
            second,
            region,
            number,
        },
        Status::NotEmpty { name } => Refusal::Store { name },
        Status::NoPosition { file, has } => Refusal::Position { file, has },
        Status::Done | Status::SinkFault | Status::NumbersSpent { .. } => return None,
    })
}
