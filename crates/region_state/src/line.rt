//! A line of the journal.

ghost use Rattle.std.specs.Prelude.{◌≡◌, ◌↔◌, ◌≤◌, IsTrue, length};
ghost use Rattle.std.specs.Arc.{arc_value};
ghost use Rattle.region_model.specs.Lines.{pending, is_done_line};
ghost use Rattle.region_state.specs.Outcomes.{outcome_of, outcome_at_end};

use crate::caller::Caller;
use kv_cell::Batch;
use std::alloc::Global;
use std::marker::Model;
use std::sync::Arc;

/// How far an edit has come.
#[derive(Clone, Copy, Debug, PartialEq, Eq)]
pub enum LineOutcome {
    Pending,
    Done,
    Failed,
}

/// How an edit ends.
#[derive(Clone, Copy, Debug, PartialEq, Eq)]
pub enum Ended {
    Done,
    Failed,
}

/// An edit of the region, with its number, its caller and its write time in milliseconds.
pub struct Line {
    number: u64,
    caller: Caller,
    time: u64,
    batch: Arc<Batch, Global>,
    outcome: LineOutcome,
}

/// By hand, as that of kv_cell's `Octets`: the crates above call it.
impl Drop for Line {
    fn drop(self) {
        let Line {
            number: _,
            caller: _,
            time: _,
            batch: _,
            outcome: _,
        } = self;
    }
}

impl Model for Line {
    ghost use Rattle.std.specs.Arc.{arc_value};
    ghost use Rattle.region_model.specs.Lines.{Line as TheLine};
    ghost use Rattle.region_state.specs.Outcomes.{outcome_of};
    ghost use Rattle.region_state.specs.Codes.{coded_line};

    ghost Value = { TheLine };

    ghost coded = { coded_line };

    ghost view = { λ l. record { number = l.number; caller = l.caller; time = l.time; batch = arc_value l.batch; outcome = outcome_of l.outcome } };
}

impl Line {
    pub(crate) fn new(number: u64, caller: Caller, time: u64, batch: Arc<Batch, Global>) -> Line
        ensures { result ≡ pending number caller time (arc_value batch) }
    {
        Line {
            number,
            caller,
            time,
            batch,
            outcome: LineOutcome::Pending,
        }
    }

    pub(crate) fn end(&mut self, ended: Ended)
        ensures { self.new ≡ record self.old { outcome = outcome_at_end ended } }
    {
        self.outcome = match ended {
            Ended::Done => LineOutcome::Done,
            Ended::Failed => LineOutcome::Failed,
        };
    }

    pub fn number(&self) -> u64
        ensures { result ≡ self.now.number }
    {
        self.number
    }

    pub fn caller(&self) -> Caller
        ensures { result ≡ self.now.caller }
    {
        self.caller
    }

    /// The write time, in milliseconds.
    pub fn time(&self) -> u64
        ensures { result ≡ self.now.time }
    {
        self.time
    }

    /// What the edit puts.
    pub fn batch(&self) -> &Batch
        ensures { result.now ≡ self.now.batch }
    {
        &self.batch
    }

    pub fn outcome(&self) -> LineOutcome
        ensures { outcome_of result ≡ self.now.outcome }
    {
        self.outcome
    }

    /// Whether the edit is shown once the point reaches it.
    pub fn is_done(&self) -> bool
        ensures { result ≡ is_done_line self.now }
    {
        matches!(self.outcome, LineOutcome::Done)
    }
}
