//! A law, as the contract of a function that does nothing when it runs.

ghost use Rattle.flush_snapshot.specs.Laws.{CutHoldsItsContent};

/// The store of a cut holds exactly what the cut's cells put, one after the other.
pub fn cut_holds_its_content()
    ensures { CutHoldsItsContent }
{}
