//! The first put that found no sequence id left.

ghost use Rattle.std.specs.Prelude.{◌≡◌};
ghost use Rattle.run_model.specs.Spent.{first_of};

use run_model::Spent;

/// The first of the two.
pub fn first_of(before: Option<Spent>, next: Option<Spent>) -> Option<Spent>
    ensures { result ≡ first_of before next }
{
    match before {
        Some(spent) => Some(spent),
        None => next,
    }
}
