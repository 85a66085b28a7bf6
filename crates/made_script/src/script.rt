//! The script of a load.

ghost use Rattle.std.specs.Prelude.{◌≡◌, ◌≤◌, IfOk, length};
ghost use Rattle.script_calls.specs.Calls.{call_of};
ghost use Rattle.script_model.specs.Calls.{IsScript};
ghost use Rattle.made_script.specs.Made.{AreOptions, calls_of, made_script};

use crate::call::make_call;
use crate::generator::{first_number, next_number};
use crate::options::LoadOptions;
use kv_cell::NoMemory;
use script_calls::{Call, CallList, HandlerList, Script};
use std::alloc::Global;

/// The calls of one handler.
fn make_calls(alloc: Global, options: LoadOptions, handler: u32) -> Result<CallList, NoMemory>
    requires options { AreOptions options }
    requires handler { 1 ≤ handler }
    ensures { IfOk result (λ calls. calls ≡ calls_of options handler) }
{
    let mut calls = Vec::with_capacity(alloc, options.count as usize)?;
    let mut x = first_number(options.start, handler);
    for before in 0..options.count {
        x = next_number(x);
        calls.push(make_call(alloc, options.regions, handler, before + 1, x)?)?;
    }
    Ok(CallList::of(calls))
}

/// The script that the options make, call by call. Its time is 0.
pub fn make_script(alloc: Global, options: LoadOptions) -> Result<Script, NoMemory>
    requires { AreOptions options }
    ensures made { IfOk result (λ script. script ≡ made_script options) }
    ensures right { IfOk result (λ script. IsScript script) }
{
    let mut lists = Vec::with_capacity(alloc, options.handlers as usize)?;
    for before in 0..options.handlers {
        lists.push(make_calls(alloc, options, before + 1)?)?;
    }
    Ok(Script {
        time: 0,
        regions: options.regions,
        handlers: HandlerList::of(lists),
    })
}
