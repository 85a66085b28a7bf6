//! A law, as the contract of a function that does nothing when it runs.

ghost use Rattle.run_model.specs.Spent.{FirstSpentIsFirst};

/// What is found in the replies by handler, then call, is the first put that was answered spent; where nothing is found there
/// is no such put.
pub fn first_spent_is_first()
    ensures { FirstSpentIsFirst }
{}
