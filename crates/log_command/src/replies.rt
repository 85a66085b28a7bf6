//! The replies to the puts of a log. Their room is taken before the disk is touched, so that a reply is written without
//! memory.

ghost use Rattle.std.specs.Prelude.{◌≡◌, false, ◌<◌, ◌≤◌, ◌+◌, ◌*◌, ◌++◌, [], length, vec_capacity, vec_len, IfOk};
ghost use Rattle.std.specs.List.{flat_map};
ghost use Rattle.script_model.specs.Report.{cells_told, end_line, replies_text, reply_text};
ghost use Rattle.script_calls.specs.Answers.{answer_of, is_got};
ghost use Rattle.log_command.specs.Logged.{oks, faults, put_reply, stopped_replies};

use kv_cell::{NoMemory, put};
use report_text::{Answer, Line, end_line, reply_line};
use std::alloc::Global;

/// An output line without tokens has at most so many bytes.
const LINE_BYTES: usize = 160;

/// Room for the replies to so many puts, and for the last line.
pub fn make_room(alloc: Global, count: usize) -> Result<Vec<u8>, NoMemory>
    requires { count ≤ 268435456 }
    ensures empty { IfOk result (λ out. out.items ≡ []) }
    ensures room { IfOk result (λ out. 160 * (count + 1) ≤ vec_capacity out) }
{
    let mut out = Vec::new(alloc);
    out.reserve(LINE_BYTES * (count + 1))?;
    Ok(out)
}

/// The replies where all of so many puts were committed.
pub fn put_all_ok(out: &mut Vec<u8>, count: usize)
    requires few { count ≤ 268435456 }
    requires empty { out.old.items ≡ [] }
    requires room { 160 * (count + 1) ≤ vec_capacity out.old }
    ensures { out.new.items ≡ replies_text (oks 1 count) 0 }
{
    put_oks(out, count);
    put_line(out, &end_line(0));
}

/// The replies where the disk failed in the put after the first `done` ones.
pub fn put_stopped(out: &mut Vec<u8>, count: usize, done: usize)
    requires few { count ≤ 268435456 }
    requires fewer { done < count }
    requires empty { out.old.items ≡ [] }
    requires room { 160 * (count + 1) ≤ vec_capacity out.old }
    ensures { out.new.items ≡ replies_text (stopped_replies count done) 5 }
{
    put_oks(out, done);
    let call = done + 1;
    let number = call as u64;
    put_reply(out, call, Answer::PutFaultAt { number });
    put_faults(out, call + 1, count - call);
    put_line(out, &end_line(5));
}

/// The replies `put ok` to so many puts from the first one on.
fn put_oks(out: &mut Vec<u8>, count: usize)
    requires few { count ≤ 268435456 }
    requires room { vec_len out.old + 160 * count ≤ vec_capacity out.old }
    ensures text { out.new.items ≡ out.old.items ++ flat_map reply_text (oks 1 count) }
    ensures len { vec_len out.new ≤ vec_len out.old + 160 * count }
    ensures capacity { vec_capacity out.old ≤ vec_capacity out.new }
{
    for i in 0..count {
        let number = i as u64 + 1;
        put_reply(out, i + 1, Answer::PutOk { number });
    }
}

/// The replies `put fault` to so many puts from this one on.
fn put_faults(out: &mut Vec<u8>, first: usize, count: usize)
    requires few { first + count ≤ 268435457 }
    requires room { vec_len out.old + 160 * count ≤ vec_capacity out.old }
    ensures text { out.new.items ≡ out.old.items ++ flat_map reply_text (faults first count) }
    ensures len { vec_len out.new ≤ vec_len out.old + 160 * count }
    ensures capacity { vec_capacity out.old ≤ vec_capacity out.new }
{
    for i in 0..count {
        put_reply(out, first + i, Answer::PutFault);
    }
}

/// The reply to one put of handler 1.
fn put_reply(out: &mut Vec<u8>, call: usize, answer: Answer)
    requires few { call ≤ 268435457 }
    requires room { vec_len out.old + 160 ≤ vec_capacity out.old }
    requires told { cells_told (answer_of answer) ≡ [] }
    requires put { is_got answer ≡ false }
    ensures text { out.new.items ≡ out.old.items ++ reply_text (put_reply call (answer_of answer)) }
    ensures len { vec_len out.new ≤ vec_len out.old + 160 }
    ensures capacity { vec_capacity out.old ≤ vec_capacity out.new }
{
    put_line(out, &reply_line(1, call as u32, &answer));
}

fn put_line(out: &mut Vec<u8>, line: &Line)
    requires { vec_len out.old + 160 ≤ vec_capacity out.old }
    ensures text { out.new.items ≡ out.old.items ++ line.now }
    ensures len { vec_len out.new ≤ vec_len out.old + 160 }
    ensures capacity { vec_capacity out.old ≤ vec_capacity out.new }
{
    put(out, line.as_slice());
}
