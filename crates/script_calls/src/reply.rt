//! The replies to the calls of a script.

ghost use Rattle.std.specs.Prelude.{◌≡◌};

use crate::answer::Answer;
use std::marker::Model;

/// The answer to one call of one handler; both count from 1.
#[derive(Debug, Drop)]
pub struct ReplyLine {
    pub handler: u32,
    pub call: u32,
    pub answer: Answer,
}

impl Model for ReplyLine {
    ghost use Rattle.script_model.specs.Report.{ReplyLine as TheLine};
    ghost use Rattle.script_calls.specs.Answers.{answer_of, is_got};

    ghost Value = { TheLine };

    ghost view = { λ r. record { handler = r.handler; call = r.call; answer = answer_of r.answer; got = is_got r.answer } };
}

/// Replies by handler, then call.
#[derive(Debug, Drop)]
pub struct ReplyLines {
    lines: Vec<ReplyLine>,
}

impl Model for ReplyLines {
    ghost use Rattle.std.specs.Prelude.{List};
    ghost use Rattle.script_model.specs.Report.{ReplyLine as TheLine};

    ghost Value = { List TheLine };

    ghost view = { λ l. l.lines.items };
}

impl ReplyLines {
    /// The lines of a vector. It takes no memory.
    pub fn of(lines: Vec<ReplyLine>) -> ReplyLines
        ensures { result ≡ lines.items }
    {
        ReplyLines { lines }
    }

    /// The lines, lent.
    pub fn as_slice(&self) -> &[ReplyLine]
        ensures { result.now ≡ self.now }
    {
        self.lines.as_slice()
    }

    /// The lines as a vector again. It takes no memory.
    pub fn into_vec(self) -> Vec<ReplyLine>
        ensures { result.items ≡ self }
    {
        self.lines
    }
}
