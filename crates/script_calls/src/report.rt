//! The report of a run.

ghost use Rattle.std.specs.Prelude.{◌≡◌};

use crate::reply::ReplyLines;
use std::marker::Model;

/// One edit of a region's journal: its number, the call that put it, and whether it was done or failed.
#[derive(Debug, Drop)]
pub struct EditLine {
    pub number: u64,
    pub handler: u32,
    pub call: u32,
    pub done: bool,
}

impl Model for EditLine {
    ghost use Rattle.script_model.specs.Report.{EditLine as TheLine};

    ghost Value = { TheLine };

    ghost view = { λ e. record { number = e.number; handler = e.handler; call = e.call; done = e.done } };
}

/// The edits of a journal in rising number.
#[derive(Debug, Drop)]
pub struct EditLines {
    lines: Vec<EditLine>,
}

impl Model for EditLines {
    ghost use Rattle.std.specs.Prelude.{List};
    ghost use Rattle.script_model.specs.Report.{EditLine as TheLine};

    ghost Value = { List TheLine };

    ghost view = { λ l. l.lines.items };
}

impl EditLines {
    /// The lines of a vector. It takes no memory.
    pub fn of(lines: Vec<EditLine>) -> EditLines
        ensures { result ≡ lines.items }
    {
        EditLines { lines }
    }

    /// The lines, lent.
    pub fn as_slice(&self) -> &[EditLine]
        ensures { result.now ≡ self.now }
    {
        self.lines.as_slice()
    }

    /// The lines as a vector again. It takes no memory.
    pub fn into_vec(self) -> Vec<EditLine>
        ensures { result.items ≡ self }
    {
        self.lines
    }
}

/// A region, its base's last number and number of cells, and the edits of its journal.
#[derive(Debug, Drop)]
pub struct RegionLine {
    pub region: u32,
    pub last: u64,
    pub count: u64,
    pub edits: EditLines,
}

impl Model for RegionLine {
    ghost use Rattle.script_model.specs.Report.{RegionLine as TheLine};

    ghost Value = { TheLine };

    ghost view = { λ r. record { region = r.region; last = r.last; count = r.count; edits = r.edits } };
}

/// The regions of a script, 1 and so on.
#[derive(Debug, Drop)]
pub struct RegionLines {
    lines: Vec<RegionLine>,
}

impl Model for RegionLines {
    ghost use Rattle.std.specs.Prelude.{List};
    ghost use Rattle.script_model.specs.Report.{RegionLine as TheLine};

    ghost Value = { List TheLine };

    ghost view = { λ l. l.lines.items };
}

impl RegionLines {
    /// The lines of a vector. It takes no memory.
    pub fn of(lines: Vec<RegionLine>) -> RegionLines
        ensures { result ≡ lines.items }
    {
        RegionLines { lines }
    }

    /// The lines, lent.
    pub fn as_slice(&self) -> &[RegionLine]
        ensures { result.now ≡ self.now }
    {
        self.lines.as_slice()
    }

    /// The lines as a vector again. It takes no memory.
    pub fn into_vec(self) -> Vec<RegionLine>
        ensures { result.items ≡ self }
    {
        self.lines
    }
}

/// What a run tells: its regions' journals, a reply for each call, and the status that it ends with.
#[derive(Debug, Drop)]
pub struct Report {
    pub regions: RegionLines,
    pub replies: ReplyLines,
    pub status: u32,
}

impl Model for Report {
    ghost use Rattle.script_model.specs.Report.{Report as TheReport};

    ghost Value = { TheReport };

    ghost view = { λ r. record { regions = r.regions; replies = r.replies; status = r.status } };
}
