//! Which status a report has.

ghost use Rattle.std.specs.Prelude.{◌≡◌};
ghost use Rattle.script_calls.specs.Answers.{answer_of};
ghost use Rattle.run_command.specs.Decided.{decided, wants_memory, is_want};

use command_base::Status;
use run_model::Spent;
use script_calls::{Answer, ReplyLine};

/// The status of a run whose log broke or didn't, with the first put that found no sequence id left, and with these replies.
pub fn decide(broken: bool, spent: Option<Spent>, lines: &[ReplyLine]) -> Status
    ensures { result ≡ decided broken spent lines.now }
{
    if broken {
        return Status::DiskFault;
    }
    if let Some(Spent { region, last }) = spent {
        return Status::NumbersSpent { region, last };
    }
    if any_want(lines) {
        Status::Memory
    } else {
        Status::Done
    }
}

/// Whether a call was refused memory.
fn any_want(lines: &[ReplyLine]) -> bool
    ensures { result ≡ wants_memory lines.now }
{
    for line in lines {
        if wants(&line.answer) {
            return true;
        }
    }
    false
}

fn wants(answer: &Answer) -> bool
    ensures { result ≡ is_want (answer_of answer.now) }
{
    matches!(
        answer,
        Answer::PutMemory
            | Answer::PutMemoryAt { .. }
            | Answer::ScanMemory
            | Answer::GetMemory
            | Answer::FlushMemory
            | Answer::RollMemory
    )
}
