//! The law, as the contract of a function that does nothing when it runs.

ghost use Rattle.server_model.specs.Laws.{RepliesAreLawful};

/// Where all that passes know meets in a region's journal, and the replies stand by handler and call, they are lawful for
/// it.
pub fn replies_are_lawful()
    ensures { RepliesAreLawful }
{}
