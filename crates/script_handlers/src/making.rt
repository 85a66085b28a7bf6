//! All calls of a handler.

ghost use Rattle.std.specs.Prelude.{◌≡◌, ◌≤◌, ◌<◌, ◌+◌, ◌^◌, ◌++◌, [], None, length, map, option_to_list, vec_len, vec_capacity};
ghost use Rattle.script_calls.specs.Calls.{call_of};
ghost use Rattle.script_handlers.specs.Handled.{Handles, HasRun, IsReady, MayCallAll};

use crate::handler::Handler;
use crate::serves::Serves;
use crate::spending::{or_told, region_of};
use handler_threads::region_calls::Gate;
use run_model::Spent;
use script_calls::{Call, ReplyLine};
use std::alloc::Global;
use std::mem;
use std::sync::Wait;

/// Makes the calls one after the other, and keeps the first put that found no sequence id left.
fn make_calls<R: Wait, S: Serves, G: Gate>(
    rt: &R,
    alloc: Global,
    server: &S,
    gate: &G,
    time: u64,
    pass: &mut S::Pass,
    calls: Vec<Call>,
    replies: &mut Vec<ReplyLine>,
) -> Option<Spent>
    requires of { S.is_pass server.now pass.old }
    requires fresh { S.calls_of (S.knows pass.old) ≡ 0 }
    requires none { replies.old.items ≡ [] }
    requires room { vec_len calls ≤ vec_capacity replies.old }
    requires few { vec_len calls < 2 ^ 32 }
    requires may { MayCallAll S.may (S.handler_of (S.knows pass.old)) 1 (map call_of calls.items) }
    requires time { time < 2 ^ 63 }
    ensures handles { Handles S.handler_of (S.does server.now time) S.calls_of (S.handler_of (S.knows pass.old)) (map call_of calls.items)
        (S.knows pass.old) (S.knows pass.new) replies.new.items result }
    ensures of { S.is_pass server.now pass.new }
{
    let handler = server.handler(pass);
    let mut number = 0;
    let mut spent = None;
    let mut later = calls;
    later.reverse();
    while let Some(call) = next_call(&mut later) {
        number += 1;
        let region = region_of(&call);
        let answer = server.make(rt, alloc, gate, time, pass, number, call);
        spent = or_told(spent, region, &answer);
        replies.push_reserved(ReplyLine {
            handler,
            call: number,
            answer,
        });
    }
    spent
}

/// Takes the call at the end. Room for calls that were made goes back each time it is half of all.
fn next_call(later: &mut Vec<Call>) -> Option<Call>
    ensures call { later.old.items ≡ later.new.items ++ option_to_list result }
    ensures len { vec_len later.new + length (option_to_list result) ≡ vec_len later.old }
    ensures none { result ≡ None → later.old.items ≡ [] }
{
    let call = later.pop();
    if later.len() <= later.capacity() / 2 {
        later.shrink_to_fit();
    }
    call
}

/// Runs a handler.
pub fn handle<R: Wait, S: Serves, G: Gate>(
    rt: &R,
    alloc: Global,
    server: &S,
    gate: &G,
    time: u64,
    handler: &mut Handler<S::Pass>,
)
    requires ready { IsReady S.is_pass S.knows S.handler_of S.calls_of S.may server.now handler.old }
    requires time { time < 2 ^ 63 }
    ensures { HasRun S.is_pass S.knows S.handler_of S.calls_of (S.does server.now time) server.now handler.old handler.new }
{
    let calls = mem::replace(&mut handler.calls, Vec::new(alloc));
    handler.spent = make_calls(
        rt,
        alloc,
        server,
        gate,
        time,
        &mut handler.pass,
        calls,
        &mut handler.replies,
    );
}
