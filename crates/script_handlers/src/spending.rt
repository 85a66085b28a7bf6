//! The first put that found no sequence id left.

ghost use Rattle.std.specs.Prelude.{◌≡◌};
ghost use Rattle.script_calls.specs.Answers.{answer_of};
ghost use Rattle.script_calls.specs.Calls.{call_of};
ghost use Rattle.run_model.specs.Spent.{first_of, region_of, told_at};

use run_model::Spent;
use script_calls::{Answer, Call};

/// The region of a call, 0 where it has none.
pub fn region_of(call: &Call) -> u32
    ensures { result ≡ region_of (call_of call.now) }
{
    match call {
        Call::Put { region, .. } => *region,
        Call::Scan { region, .. } => *region,
        Call::Get { region, .. } => *region,
        Call::Flush { region, .. } => *region,
        Call::Roll => 0,
    }
}

/// What was told before, or what this answer tells.
pub fn or_told(before: Option<Spent>, region: u32, answer: &Answer) -> Option<Spent>
    ensures { result ≡ first_of before (told_at region (answer_of answer.now)) }
{
    match (before, answer) {
        (Some(spent), _) => Some(spent),
        (None, Answer::PutSpent { last }) => Some(Spent {
            region,
            last: *last,
        }),
        (None, _) => None,
    }
}
