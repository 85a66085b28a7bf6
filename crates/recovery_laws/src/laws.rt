//! The laws, each as the contract of a function that does nothing when it runs.

ghost use Rattle.recovery_laws.specs.Laws.{CommitAdds, CopiesAddNothing, StoreChangesNothing, FlushedLogMayGo};

/// Where a batch of rising sequence ids goes into a log, the files stay fit, and each region recovers to its old content
/// with the batch's entries put in, up to the last of them.
pub fn commit_adds()
    ensures { CommitAdds }
{}

/// Where copies of logged entries go into a file of entries, each region recovers alike.
pub fn copies_add_nothing()
    ensures { CopiesAddNothing }
{}

/// Where a store file appears with all that its region had not flushed up to its last sequence id, each region recovers
/// alike.
pub fn store_changes_nothing()
    ensures { StoreChangesNothing }
{}

/// Where a file of entries goes whose entries are each flushed, or logged elsewhere, each region recovers alike.
pub fn flushed_log_may_go()
    ensures { FlushedLogMayGo }
{}
