//! What a line says, after those so far.

ghost use Rattle.std.specs.Prelude.{◌≡◌, ◌<◌, OnOk, Some, map};
ghost use Rattle.script_model.specs.Script.{after_cell, after_spoken, batch_so_far, end_fault, named_fault, say, words_fault};
ghost use Rattle.script_model.specs.Tables.{begins_with, call_fault, cell_in, due_fault, spoken_of, table_in};
ghost use Rattle.script_lines.specs.Why.{Tells};

use crate::cells::due_line;
use crate::state::State;
use crate::table::table_line;
use script_lines::{LineError, ScriptWhy, Spoken, call_line};
use script_model::Command;
use std::alloc::Global;

impl State {
    /// Says a line where a cell is due.
    fn say_due(
        &mut self,
        alloc: Global,
        command: Command,
        time: u64,
        words: &[&[u8]],
    ) -> Result<(), LineError>
        requires due { 0 < self.old.due }
        requires time { time < 9223372036854775808 }
        ensures exact { Tells result (due_fault command time (batch_so_far self.old) (map (λ w. w.now) words.now)) }
        ensures said { OnOk result (self.new ≡ after_cell self.old (cell_in time (map (λ w. w.now) words.now))) }
    {
        let cell = due_line(alloc, command, time, self.filling(), words)?;
        self.add_cell(alloc, cell)?;
        Ok(())
    }

    /// Says the line of the table's name.
    fn say_table(
        &mut self,
        alloc: Global,
        command: Command,
        words: &[&[u8]],
    ) -> Result<(), LineError>
        requires none { self.old.due ≡ 0 }
        ensures exact { Tells result (named_fault command self.old (map (λ w. w.now) words.now)) }
        ensures said { OnOk result (self.new ≡ record self.old { table = table_in (map (λ w. w.now) words.now) }) }
    {
        if !self.is_head_alone() {
            return Err(LineError::Wrong(ScriptWhy::Word));
        }
        let table = table_line(alloc, command, words)?;
        self.name_table(table);
        Ok(())
    }

    /// Says a line of calls.
    fn say_call(
        &mut self,
        alloc: Global,
        command: Command,
        handlers: u64,
        regions: u32,
        words: &[&[u8]],
    ) -> Result<(), LineError>
        requires none { self.old.due ≡ 0 }
        requires handlers { self.old.handlers ≡ Some handlers }
        requires regions { self.old.regions ≡ Some regions }
        ensures exact { Tells result (call_fault command handlers regions (map (λ w. w.now) words.now)) }
        ensures said { OnOk result (self.new ≡ after_spoken self.old (spoken_of (map (λ w. w.now) words.now))) }
    {
        match call_line(alloc, command, handlers, regions, words)? {
            Spoken::Calls { handler, call } => self.add_call(handler, call)?,
            Spoken::Opens {
                handler,
                region,
                durability,
                count,
            } => self.open(alloc, handler, region, durability, count)?,
        }
        Ok(())
    }

    /// Says a line with words.
    pub fn say(&mut self, alloc: Global, command: Command, words: &[&[u8]]) -> Result<(), LineError>
        ensures exact { Tells result (words_fault command self.old (map (λ w. w.now) words.now)) }
        ensures said { OnOk result (self.new ≡ say self.old (map (λ w. w.now) words.now)) }
    {
        let Some(time) = self.time() else {
            return self.say_time(words);
        };
        let Some(regions) = self.regions() else {
            return self.say_regions(command, words);
        };
        let Some(handlers) = self.handlers() else {
            return self.say_handlers(command, words);
        };
        if self.due() > 0 {
            return self.say_due(alloc, command, time, words);
        }
        if begins_with(b"cell", words) {
            return Err(LineError::Wrong(ScriptWhy::Count));
        }
        if begins_with(b"table", words) {
            return self.say_table(alloc, command, words);
        }
        self.say_call(alloc, command, handlers, regions, words)
    }

    /// Whether the text may end here.
    pub fn end(&self) -> Result<(), LineError>
        ensures exact { Tells result (end_fault self.now) }
    {
        let Some(_handlers) = self.handlers() else {
            return Err(LineError::Wrong(ScriptWhy::Word));
        };
        if self.due() > 0 {
            return Err(LineError::Wrong(ScriptWhy::Count));
        }
        Ok(())
    }
}

fn begins_with(name: &[u8], words: &[&[u8]]) -> bool
    ensures { result ≡ begins_with name.now (map (λ w. w.now) words.now) }
{
    match words {
        [first, ..] => *first == name,
        [] => false,
    }
}
