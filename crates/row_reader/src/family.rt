//! Which cells are of one family, and which of one column.

ghost use Rattle.std.specs.Prelude.{◌≡◌};
ghost use Rattle.mask_model.specs.Masked.{in_family, in_column};

use kv_cell::Cell;

/// Whether two cells have one row and one family.
pub(crate) fn is_family(a: &Cell, b: &Cell) -> bool
    ensures { result ≡ in_family a.now b.now }
{
    a.row.as_slice().cmp(b.row.as_slice()).is_eq()
        && a.family.as_slice().cmp(b.family.as_slice()).is_eq()
}

/// Whether they are of one column.
pub(crate) fn is_column(a: &Cell, b: &Cell) -> bool
    ensures { result ≡ in_column a.now b.now }
{
    is_family(a, b) && a.qualifier.as_slice().cmp(b.qualifier.as_slice()).is_eq()
}
