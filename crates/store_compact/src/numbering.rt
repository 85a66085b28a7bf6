//! The number of the store that takes the place of a region's others.

ghost use Rattle.std.specs.Prelude.{◌≡◌, ◌⊎◌, ◌≤◌, ◌<◌, ◌^◌, ◌+◌, Contains, IfOk, IfErr};
ghost use Rattle.log_model.specs.declared.name.NameKind.TheVariants as kinds;
ghost use Rattle.store_compact.specs.Plan.{IsAbove};

use disk_images::{Name, NameKind};

/// The greatest number of a name that is counted on from.
const LAST_NUMBER: u64 = 0x8000_0000_0000_0000;

/// One above the greatest number of a store among these names, 1 where there is none. Refused is a store's name with a number
/// above 2^63, which no store has that was opened.
pub(crate) fn number_above(names: &[Name]) -> Result<u64, Name>
    ensures above { IfOk result (λ number. IsAbove names.now number) }
    ensures high { IfErr result (λ name. Contains names.now name × (2 ^ 63 < name.number)) }
{
    let mut next = 1;
    for name in names {
        next = raised(next, *name)?;
    }
    Ok(next)
}

/// This number, or one above that of a store where it is greater.
fn raised(next: u64, name: Name) -> Result<u64, Name>
    ensures low { IfOk result (λ n. next ≤ n) }
    ensures above { IfOk result (λ n. name.kind ≡ kinds.Store → name.number < n) }
    ensures one { IfOk result (λ n. (n ≡ next) ⊎ ((name.kind ≡ kinds.Store) × (n ≡ name.number + 1))) }
    ensures high { IfErr result (λ high. (high ≡ name) × (2 ^ 63 < name.number)) }
{
    match name.kind {
        NameKind::Store => above(next, name),
        NameKind::Log | NameKind::Old | NameKind::Edits => Ok(next),
    }
}

fn above(next: u64, name: Name) -> Result<u64, Name>
    ensures low { IfOk result (λ n. next ≤ n) }
    ensures above { IfOk result (λ n. name.number < n) }
    ensures one { IfOk result (λ n. (n ≡ next) ⊎ (n ≡ name.number + 1)) }
    ensures high { IfErr result (λ high. (high ≡ name) × (2 ^ 63 < name.number)) }
{
    if name.number < next {
        return Ok(next);
    }
    if name.number > LAST_NUMBER {
        return Err(name);
    }
    Ok(name.number + 1)
}
