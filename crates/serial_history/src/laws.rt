//! The law, as the contract of a function that does nothing when it runs.

ghost use Rattle.serial_history.specs.History.{LawfulRepliesAreOfOneThread};

/// The lawful replies of all handlers on a region are a history of one thread: what it would be answered that makes these
/// puts, scans and gets one after the other, the puts in the order of their sequence ids, and each scan or get behind the
/// put whose sequence id it read at. Each handler's puts stand in it in their own order, and so do its scans and gets and
/// the puts that went well.
pub fn lawful_replies_are_of_one_thread()
    ensures { LawfulRepliesAreOfOneThread }
{}
