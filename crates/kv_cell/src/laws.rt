//! Laws of the definitions. Each of these functions does nothing: its contract is the law.

ghost use Rattle.std.specs.Cmp.{IsTotalOrder};
ghost use Rattle.std.specs.FinMap.{IsAntisymmetric};
ghost use Rattle.cell_model.specs.Order.{version_cmp};
ghost use Rattle.kv_cell.specs.Laws.{OneCellAtAFront, NoSpellingBeginsAnother, IsReadAgain, AreTheBytesRead};

/// No spelling begins another one, so a list of bytes fronts at most one cell.
pub fn one_spelling()
    ensures fronts { OneCellAtAFront }
    ensures begins { NoSpellingBeginsAnother }
{}

/// A cell's spelling is read again whatever follows it.
pub fn read_again()
    ensures { IsReadAgain }
{}

/// The bytes of a number that was read are the bytes that were read, for numbers of two, four and eight bytes.
pub fn number_bytes()
    ensures two { AreTheBytesRead 2 }
    ensures four { AreTheBytesRead 4 }
    ensures eight { AreTheBytesRead 8 }
{}

/// The order of versions is total, and only equal versions tie in it.
pub fn one_order()
    ensures total { IsTotalOrder version_cmp }
    ensures exact { IsAntisymmetric version_cmp }
{}
