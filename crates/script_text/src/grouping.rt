//! The calls of a script by their handlers.

ghost use Rattle.std.specs.Prelude.{◌≡◌, ◌-◌, ◌≤◌, ◌∷◌, [], ◌++◌, All, IfOk, OnOk, length, map, replicate, slice_index_or, slice_set};
ghost use Rattle.script_model.specs.Calls.{by_handler};
ghost use Rattle.script_calls.specs.Calls.{call_of};
ghost use Rattle.script_text.specs.Grouping.{IsOfHandler};
ghost use Rattle.script_text.specs.State.{handler_call};

use crate::state::HandlerCall;
use kv_cell::NoMemory;
use script_calls::{Call, CallList, HandlerList};
use std::alloc::Global;

/// How many of the calls are the handler's.
fn count_of(calls: &[HandlerCall], handler: u64) -> usize {
    calls.iter().filter(|call| call.handler == handler).count()
}

/// So many lists without a call, each with room for those of its handler.
#[tactic(auto, using(crate::proofs::GroupLaws::replicate_more))]
fn empty_lists(
    alloc: Global,
    handlers: usize,
    calls: &[HandlerCall],
) -> Result<Vec<CallList>, NoMemory>
    ensures { IfOk result (λ lists. lists.items ≡ replicate handlers []) }
{
    let mut lists: Vec<CallList> = Vec::with_capacity(alloc, handlers)?;
    for i in 0..handlers {
        let count = count_of(calls, i as u64 + 1);
        lists.push(CallList::of(Vec::with_capacity(alloc, count)?))?;
    }
    Ok(lists)
}

/// Adds a call after those of its handler.
fn add_to(lists: &mut Vec<CallList>, handler: usize, call: Call) -> Result<(), NoMemory>
    requires given { 1 ≤ handler }
    requires within { handler ≤ length lists.old.items }
    ensures { OnOk result (lists.new.items ≡ slice_set lists.old.items (handler - 1) (slice_index_or lists.old.items (handler - 1) [] ++ call_of call ∷ [])) }
{
    let list = &mut lists[handler - 1];
    list.push(call)
}

/// The calls of each of so many handlers, in their order. Each call is moved once.
pub fn group(
    alloc: Global,
    handlers: usize,
    calls: Vec<HandlerCall>,
) -> Result<HandlerList, NoMemory>
    requires { All (IsOfHandler handlers) (map handler_call calls.items) }
    ensures { IfOk result (λ lists. lists ≡ by_handler handlers 1 (map handler_call calls.items)) }
{
    let mut lists = empty_lists(alloc, handlers, &calls)?;
    for one in calls {
        let HandlerCall { handler, call } = one;
        add_to(&mut lists, handler as usize, call)?;
    }
    Ok(HandlerList::of(lists))
}
