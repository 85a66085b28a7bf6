//! The laws, each as the contract of a function that does nothing when it runs.

ghost use Rattle.chronicle_model.specs.Growth.{ChronicleIsOne, AppendingProlongs, LaterEntriesAreBehind, ReachedStays, SameLogsGoOn};
ghost use Rattle.chronicle_model.specs.Shipping.{ShippingGoesOn};

/// Files have one chronicle.
pub fn chronicle_is_one()
    ensures { ChronicleIsOne }
{}

/// Where entries are appended to the highest log, and the lower ones stay, the chronicle grows at its end alone.
pub fn appending_prolongs()
    ensures { AppendingProlongs }
{}

/// What a chronicle grows by stands after each position that was reached in it.
pub fn later_entries_are_behind()
    ensures { LaterEntriesAreBehind }
{}

/// A position that is reached in a chronicle is reached in each one that this one begins.
pub fn reached_stays()
    ensures { ReachedStays }
{}

/// Files in which each log reads the same, under its old name or under the other one, go on from each other.
pub fn same_logs_go_on()
    ensures { SameLogsGoOn }
{}

/// Whatever a store's log does between calls that ship, each from the recorded position on, what was shipped with repeats
/// taken out begins what stands after the first position.
pub fn shipping_goes_on()
    ensures { ShippingGoesOn }
{}
