//! The laws of an opening: what its steps change of what a store recovers to is nothing.

ghost use Rattle.recovery_laws.specs.OpeningLaws.{AlikeInTurn, OldLogsAreNothing, HiddenStoreIsNothing, ReplayChangesNothing, KeptFileMayGo, CopiesChangeNothing};

/// Files that recover alike step after step recover alike.
pub fn alike_in_turn()
    ensures { AlikeInTurn }
{}

/// Old logs count for nothing.
pub fn old_logs_are_nothing()
    ensures { OldLogsAreNothing }
{}

/// A store file after a closed gate counts for nothing.
pub fn hidden_store_is_nothing()
    ensures { HiddenStoreIsNothing }
{}

/// Where a store appears with all that is unflushed of its region, each region recovers alike.
pub fn replay_changes_nothing()
    ensures { ReplayChangesNothing }
{}

/// Where a file goes whose entries are each flushed, or stand in an edits file that stays, each region recovers alike.
pub fn kept_file_may_go()
    ensures { KeptFileMayGo }
{}

/// Where copies of logged entries go into an edits file, each region recovers alike.
pub fn copies_change_nothing()
    ensures { CopiesChangeNothing }
{}
