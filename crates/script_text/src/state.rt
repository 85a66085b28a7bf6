//! What the lines so far have said.

ghost use Rattle.std.specs.Prelude.{◌≡◌, ◌+◌, ◌-◌, ◌^◌, ◌<◌, ◌≤◌, ◌∷◌, [], ◌++◌, All, IfNone, IfOk, IfSome, None, OnOk, Some, length, map, unwrap_or, codes};
ghost use Rattle.cell_model.specs.Batch.{body_length};
ghost use Rattle.script_model.specs.Calls.{IsScript, by_handler, script_of};
ghost use Rattle.script_model.specs.Fields.{one_more};
ghost use Rattle.script_model.specs.Script.{batch_so_far, end_fault, is_head_alone, nothing_said, with_call, with_cell};
ghost use Rattle.script_model.specs.Tables.{counted_fault, head_fault, second_number};
ghost use Rattle.script_calls.specs.Calls.{call_of, is_sync};
ghost use Rattle.script_lines.specs.Spoken.{IsCallOf};
ghost use Rattle.script_text.specs.State.{InScript, handler_call};
ghost use Rattle.script_lines.specs.Why.{Tells};

use crate::filling::Filling;
use crate::grouping::group;
use kv_cell::{Cell, Durability, NoMemory, Octets};
use script_calls::{Call, Script};
use script_lines::{LineError, counted_line, head_line};
use script_model::Command;
use std::alloc::Global;
use std::marker::Model;

/// A call with its handler.
#[derive(Drop)]
pub struct HandlerCall {
    pub handler: u64,
    pub call: Call,
}

/// The head lines so far, the calls so far, and the put whose cells are not all there. The name of the table stands
/// with the cells of that put.
#[derive(Drop)]
pub struct State {
    time: Option<u64>,
    regions: Option<u32>,
    handlers: Option<u64>,
    calls: Vec<HandlerCall>,
    handler: u64,
    region: u32,
    durability: Durability,
    due: u64,
    filling: Filling,
}

impl Model for State {
    ghost use Rattle.std.specs.Prelude.{map};
    ghost use Rattle.script_model.specs.Script.{Said};

    ghost Value = { Said };

    ghost use Rattle.script_calls.specs.Calls.{is_sync};
    ghost use Rattle.script_text.specs.State.{IsBehindHead, IsDue, IsHead, IsOpen, handler_call};

    ghost view = { λ s. record {
      time = s.time;
      regions = s.regions;
      handlers = s.handlers;
      table = s.filling.table;
      calls = map handler_call s.calls.items;
      open_put = (s.handler, s.region, is_sync s.durability);
      cells = s.filling.cells;
      due = s.due;
    } };

    ghost invariant = { λ s. IsHead s.time s.regions s.handlers
        × IsBehindHead s.regions s.handlers (map handler_call s.calls.items) s.due
        × IsOpen s.handlers s.regions s.handler s.region s.due
        × IsDue s.filling.cells s.due };
}

impl State {
    /// No line has been read.
    pub fn new(alloc: Global) -> State
        ensures { result ≡ nothing_said }
    {
        State {
            time: None,
            regions: None,
            handlers: None,
            calls: Vec::new(alloc),
            handler: 0,
            region: 0,
            durability: Durability::Async,
            due: 0,
            filling: Filling::new(alloc),
        }
    }

    pub(crate) fn time(&self) -> Option<u64>
        ensures value { result ≡ self.now.time }
        ensures within { IfSome result (λ t. t < 2 ^ 63 - 1) }
    {
        self.time
    }

    pub(crate) fn regions(&self) -> Option<u32>
        ensures value { result ≡ self.now.regions }
        ensures within { IfSome result (λ n. (1 ≤ n) × (n ≤ 64)) }
    {
        self.regions
    }

    pub(crate) fn handlers(&self) -> Option<u64>
        ensures value { result ≡ self.now.handlers }
        ensures within { IfSome result (λ n. (1 ≤ n) × (n ≤ 16)) }
    {
        self.handlers
    }

    /// The number of cells that are due.
    pub(crate) fn due(&self) -> u64
        ensures { result ≡ self.now.due }
    {
        self.due
    }

    /// The name of the table, and the cells of the open put so far.
    pub(crate) fn filling(&self) -> &Filling
        ensures { result.now ≡ batch_so_far self.now }
    {
        &self.filling
    }

    /// Whether neither the name of the table nor a call was said.
    pub(crate) fn is_head_alone(&self) -> bool
        ensures { result ≡ is_head_alone self.now }
    {
        !self.filling.is_named() && self.calls.is_empty()
    }

    pub(crate) fn say_time(&mut self, words: &[&[u8]]) -> Result<(), LineError>
        ensures exact { Tells result (head_fault (codes "time") 0 (2 ^ 63 - 2) (map (λ w. w.now) words.now)) }
        ensures said { OnOk result (self.new ≡ record self.old { time = Some (second_number (map (λ w. w.now) words.now)) }) }
    {
        let time = head_line(words, b"time", 0, 0x7FFF_FFFF_FFFF_FFFE)?;
        self.time = Some(time);
        Ok(())
    }

    pub(crate) fn say_regions(&mut self, command: Command, words: &[&[u8]]) -> Result<(), LineError>
        requires { self.old.regions ≡ None }
        ensures exact { Tells result (counted_fault command (codes "regions") 64 (map (λ w. w.now) words.now)) }
        ensures said { OnOk result (self.new ≡ record self.old { regions = Some (second_number (map (λ w. w.now) words.now)) }) }
    {
        let regions = counted_line(command, words, b"regions", 64)?;
        self.regions = Some(regions as u32);
        Ok(())
    }

    pub(crate) fn say_handlers(
        &mut self,
        command: Command,
        words: &[&[u8]],
    ) -> Result<(), LineError>
        requires first { self.old.handlers ≡ None }
        requires behind { self.old.regions ≡ None → ⊥ }
        ensures exact { Tells result (counted_fault command (codes "handlers") 16 (map (λ w. w.now) words.now)) }
        ensures said { OnOk result (self.new ≡ record self.old { handlers = Some (second_number (map (λ w. w.now) words.now)) }) }
    {
        let handlers = counted_line(command, words, b"handlers", 16)?;
        self.handlers = Some(handlers);
        Ok(())
    }

    /// Says the name of the table.
    pub(crate) fn name_table(&mut self, table: Octets)
        requires none { self.old.due ≡ 0 }
        requires short { length table ≤ 255 }
        ensures { self.new ≡ record self.old { table = table } }
    {
        self.filling.name(table);
    }

    /// Says a call.
    pub(crate) fn add_call(&mut self, handler: u64, call: Call) -> Result<(), NoMemory>
        requires within { InScript self.old.handlers self.old.regions (handler, call_of call) }
        ensures { OnOk result (self.new ≡ with_call self.old handler (call_of call)) }
    {
        self.calls.push(HandlerCall { handler, call })?;
        Ok(())
    }

    /// Says a put whose cells follow. Room is taken for exactly these.
    pub(crate) fn open(
        &mut self,
        alloc: Global,
        handler: u64,
        region: u32,
        durability: Durability,
        count: u64,
    ) -> Result<(), NoMemory>
        requires none { self.old.due ≡ 0 }
        requires behind { self.old.handlers ≡ None → ⊥ }
        requires handler { (1 ≤ handler) × (handler ≤ unwrap_or self.old.handlers 0) }
        requires region { (1 ≤ region) × (region ≤ unwrap_or self.old.regions 0) }
        requires count { count ≤ 1024 }
        ensures { OnOk result (self.new ≡ record self.old { open_put = (handler, region, is_sync durability); due = count }) }
    {
        self.filling.open(alloc, count as usize)?;
        self.handler = handler;
        self.region = region;
        self.durability = durability;
        self.due = count;
        Ok(())
    }

    /// Says a cell of the open put, and with the last of them the put.
    pub(crate) fn add_cell(&mut self, alloc: Global, cell: Cell) -> Result<(), NoMemory>
        requires due { 0 < self.old.due }
        requires room { body_length (one_more (batch_so_far self.old) cell) ≤ 1048576 }
        ensures { OnOk result (self.new ≡ with_cell self.old cell) }
    {
        self.filling.push(cell)?;
        self.due -= 1;
        if self.due == 0 {
            let call = Call::Put {
                region: self.region,
                durability: self.durability,
                batch: self.filling.take(alloc)?,
            };
            self.add_call(self.handler, call)?;
        }
        Ok(())
    }

    /// The script that was said, where the text may end.
    pub fn into_script(self, alloc: Global) -> Result<Script, NoMemory>
        requires ended { end_fault self ≡ None }
        requires few { length self.calls ≤ 16777216 }
        ensures value { IfOk result (λ script. script ≡ script_of self) }
        ensures within { IfOk result (λ script. IsScript script) }
    {
        make_script(
            alloc,
            self.time.unwrap_or(0),
            self.regions.unwrap_or(0),
            self.handlers.unwrap_or(0),
            self.calls,
        )
    }
}

/// The script of these calls.
fn make_script(
    alloc: Global,
    time: u64,
    regions: u32,
    handlers: u64,
    calls: Vec<HandlerCall>,
) -> Result<Script, NoMemory>
    requires time { time < 2 ^ 63 - 1 }
    requires regions { (1 ≤ regions) × (regions ≤ 64) }
    requires handlers { (1 ≤ handlers) × (handlers ≤ 16) }
    requires calls { All (λ c. IsCallOf handlers regions c.0 c.1) (map handler_call calls.items) }
    requires few { length (map handler_call calls.items) ≤ 16777216 }
    ensures value { IfOk result
        (λ script. script ≡ record { time = time; regions = regions; handlers = by_handler handlers 1 (map handler_call calls.items) }) }
    ensures within { IfOk result (λ script. IsScript script) }
{
    let handlers = group(alloc, handlers as usize, calls)?;
    Ok(Script {
        time,
        regions,
        handlers,
    })
}
