//! Reply lines, each with the cells that its answer tells, and the last line.

ghost use Rattle.std.specs.Prelude.{◌≡◌, ◌≤◌, ◌+◌, [], ◌++◌, IfOk, IsTrue, OnOk, length, take, vec_len};
ghost use Rattle.std.specs.List.{flat_map, AllByRecursion};
ghost use Rattle.region_model.specs.Calls.{is_scan};
ghost use Rattle.script_model.specs.Report.{cell_line, cells_told, end_line, replies_text, reply_text};
ghost use Rattle.script_calls.specs.Answers.{answer_of, is_got};
ghost use Rattle.report_text.specs.Reading.{AreNumbers, numbers_of, IsNumberedCell, IsReplyLine};
ghost use Rattle.report_text.specs.Texts.{answer_text, reply_head};

use crate::cells::append_cells;
use crate::short_line::Line;
use crate::words::append;
use kv_cell::{NoMemory, Octets};
use script_calls::{Answer, ReplyLine, ReplyLines};
use std::alloc::Global;

/// Adds the words of an answer.
#[tactic(auto, unfolding(crate::specs::Texts::answer_text))]
fn push_answer(line: &mut Line, answer: &Answer)
    requires { length line.old + 55 ≤ 160 }
    ensures text { line.new ≡ line.old ++ answer_text (is_got answer.now) (answer_of answer.now) }
    ensures len { length line.new ≤ length line.old + 55 }
    ensures reads { AreNumbers (numbers_of (answer_of answer.now)) }
    ensures got { IsTrue (is_got answer.now) → IsTrue (is_scan (answer_of answer.now)) }
{
    match answer {
        Answer::PutOk { number } => line.push_numbered("put ok ", *number),
        Answer::PutMemory => line.push("put memory"),
        Answer::PutMemoryAt { number } => line.push_numbered("put memory ", *number),
        Answer::PutFault => line.push("put fault"),
        Answer::PutFaultAt { number } => line.push_numbered("put fault ", *number),
        Answer::PutSpent { last } => line.push_numbered("put spent ", *last),
        Answer::Scanned { point, cells } => line.push_two("scan ", *point, cells.len() as u64),
        Answer::ScanMemory => line.push("scan memory"),
        Answer::Got { point, cells } => line.push_two("get ", *point, cells.len() as u64),
        Answer::GetMemory => line.push("get memory"),
        Answer::FlushOk { number } => line.push_numbered("flush ok ", *number),
        Answer::FlushNothing { number } => line.push_numbered("flush nothing ", *number),
        Answer::FlushBusy { handler, call } => {
            line.push_two("flush busy ", *handler as u64, *call as u64)
        }
        Answer::FlushFault => line.push("flush fault"),
        Answer::FlushMemory => line.push("flush memory"),
        Answer::RollOk { file, entries } => line.push_two("roll ok ", *file, *entries),
        Answer::RollNothing { file } => line.push_numbered("roll nothing ", *file),
        Answer::RollFault => line.push("roll fault"),
        Answer::RollMemory => line.push("roll memory"),
    }
}

/// The line of a reply, without the cells that its answer tells.
#[tactic(auto, unfolding(crate::specs::Texts::reply_head))]
fn head_line(handler: u32, call: u32, answer: &Answer) -> Line
    ensures text { result ≡ reply_head handler call (is_got answer.now) (answer_of answer.now) }
    ensures len { length result ≤ 160 }
    ensures reads { AreNumbers (numbers_of (answer_of answer.now)) }
    ensures got { IsTrue (is_got answer.now) → IsTrue (is_scan (answer_of answer.now)) }
{
    let mut line = Line::new();
    line.push_two("reply ", handler as u64, call as u64);
    line.push(" ");
    push_answer(&mut line, answer);
    line.push("\n");
    line
}

/// The line of a reply that tells no cells. It takes no memory.
#[tactic(auto, using(crate::proofs::LineLaws::cells_left_out))]
pub fn reply_line(handler: u32, call: u32, answer: &Answer) -> Line
    requires told { cells_told (answer_of answer.now) ≡ [] }
    ensures text { result ≡ reply_text (record { handler = handler; call = call; answer = answer_of answer.now; got = is_got answer.now }) }
    ensures len { length result ≤ 160 }
{
    head_line(handler, call, answer)
}

/// The last line of an output. It takes no memory.
#[tactic(auto, unfolding(script_model::specs::Report::end_line))]
pub fn end_line(status: u32) -> Line
    ensures text { result ≡ end_line status }
    ensures len { length result ≤ 160 }
{
    let mut line = Line::new();
    line.push_numbered("end ", status as u64);
    line.push("\n");
    line
}

/// Appends the lines of the cells that an answer tells.
fn append_told(out: &mut Vec<u8>, answer: &Answer) -> Result<(), NoMemory>
    ensures ok { OnOk result (out.new.items ≡ out.old.items ++ flat_map cell_line (cells_told (answer_of answer.now))) }
    ensures reads { OnOk result (AllByRecursion IsNumberedCell (cells_told (answer_of answer.now))) }
    ensures kept { take (vec_len out.old) out.new.items ≡ out.old.items }
{
    match answer {
        Answer::Scanned { cells, .. } | Answer::Got { cells, .. } => append_cells(
            out,
            cells.as_slice(),
        ),
        _ => Ok(()),
    }
}

/// Appends the line of a reply, and those of the cells that it tells. After a refusal the vector begins with what it had.
pub fn append_reply(out: &mut Vec<u8>, reply: &ReplyLine) -> Result<(), NoMemory>
    ensures ok { OnOk result (out.new.items ≡ out.old.items ++ reply_text reply.now) }
    ensures reads { OnOk result (IsReplyLine reply.now) }
    ensures kept { take (vec_len out.old) out.new.items ≡ out.old.items }
{
    let line = head_line(reply.handler, reply.call, &reply.answer);
    append(out, line.as_slice())?;
    append_told(out, &reply.answer)?;
    Ok(())
}

/// Appends the last line of an output. After a refusal the vector begins with what it had.
pub fn append_end(out: &mut Vec<u8>, status: u32) -> Result<(), NoMemory>
    ensures ok { OnOk result (out.new.items ≡ out.old.items ++ end_line status) }
    ensures kept { take (vec_len out.old) out.new.items ≡ out.old.items }
{
    append(out, end_line(status).as_slice())
}

/// Appends the reply lines and the last line.
pub(crate) fn append_replies(
    out: &mut Vec<u8>,
    replies: &[ReplyLine],
    status: u32,
) -> Result<(), NoMemory>
    ensures ok { OnOk result (out.new.items ≡ out.old.items ++ replies_text replies.now status) }
    ensures reads { OnOk result (AllByRecursion IsReplyLine replies.now) }
{
    for reply in replies {
        append_reply(out, reply)?;
    }
    append_end(out, status)
}

/// The reply lines and the last line, which is what `log` prints.
pub fn write_replies(alloc: Global, replies: &ReplyLines, status: u32) -> Result<Octets, NoMemory>
    ensures { IfOk result (λ text. text ≡ replies_text replies.now status) }
{
    let mut out = Vec::new(alloc);
    append_replies(&mut out, replies.as_slice(), status)?;
    Ok(Octets::of(out))
}
