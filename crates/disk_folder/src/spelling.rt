//! The names of a store's files as text: `log-N`, `old-N`, `store-R-N` and `edits-R-N`, with decimals without leading
//! zeros.

ghost use Rattle.std.specs.Prelude.{◌≡◌, ◌≢◌, ◌<◌, ◌^◌, ◌∷◌, ◌++◌, ℕ, List, Some, IfSome, MatchOption, decimal};
ghost use Rattle.disk_folder.specs.Spelling.{FitsTypes};
ghost use Rattle.log_model.specs.Files.{IsName};
ghost use Rattle.log_model.specs.declared.name.Name.{Name as TheName};
ghost use Rattle.script_model.specs.Outputs.{name_text};

use disk_images::{Name, NameKind};
use itoa::Buffer;
use std::fmt;

/// A name, printed as it is spelled.
#[derive(Clone, Copy)]
pub struct Spelled(pub Name);

impl fmt::Display for Spelled {
    ghost output = { λ spelled. Some (name_text spelled.0) };

    #[tactic(auto, unfolding(script_model::specs::Outputs::name_text))]
    fn fmt<W: fmt::Write>(&self, f: &mut fmt::Formatter<W>) -> fmt::Result {
        let Name {
            kind,
            region,
            number,
        } = self.0;
        match kind {
            NameKind::Log => write!(f, "log-{number}"),
            NameKind::Old => write!(f, "old-{number}"),
            NameKind::Store => write!(f, "store-{region}-{number}"),
            NameKind::Edits => write!(f, "edits-{region}-{number}"),
        }
    }
}

/// The name that this text spells. Regions are below 2^32 and numbers below 2^64.
#[tactic(auto, unfolding(script_model::specs::Outputs::name_text))]
pub fn name_of(text: &str) -> Option<Name>
    ensures spelled { IfSome result (λ name. (text.now ≡ name_text name) × IsName name) }
    ensures every_name { (name : TheName) → IsName name → FitsTypes name → text.now ≡ name_text name → result ≡ Some name }
{
    if let Some(number) = text.strip_prefix("log-") {
        return single(NameKind::Log, number);
    }
    if let Some(number) = text.strip_prefix("old-") {
        return single(NameKind::Old, number);
    }
    if let Some(numbers) = text.strip_prefix("store-") {
        return placed(NameKind::Store, numbers);
    }
    if let Some(numbers) = text.strip_prefix("edits-") {
        return placed(NameKind::Edits, numbers);
    }
    None
}

/// The name of a file that belongs to no region.
fn single(kind: NameKind, number: &str) -> Option<Name>
    ensures spelled { IfSome result (λ name. (name.kind ≡ kind) × (name.region ≡ 0) × (number.now ≡ decimal name.number)) }
    ensures every { (n : ℕ) → n < 2 ^ 64 → number.now ≡ decimal n → result ≡ Some (record { kind = kind; region = 0; number = n }) }
{
    Some(Name {
        kind,
        region: 0,
        number: number_of(number)?,
    })
}

/// The name of a file that belongs to a region.
fn placed(kind: NameKind, numbers: &str) -> Option<Name>
    ensures spelled { IfSome result (λ name. (name.kind ≡ kind) × (numbers.now ≡ decimal name.region ++ (45 ∷ decimal name.number))) }
    ensures every { (r n : ℕ) → r < 2 ^ 32 → n < 2 ^ 64 → numbers.now ≡ decimal r ++ (45 ∷ decimal n)
        → result ≡ Some (record { kind = kind; region = r; number = n }) }
{
    let (region, number) = pair_of(numbers)?;
    match u32::try_from(region) {
        Ok(region) => Some(Name {
            kind,
            region,
            number,
        }),
        Err(_) => None,
    }
}

/// The two numbers that stand round a dash.
fn pair_of(numbers: &str) -> Option<(u64, u64)>
    ensures spelled { IfSome result (λ pair. numbers.now ≡ decimal pair.0 ++ (45 ∷ decimal pair.1)) }
    ensures every { (r n : ℕ) → r < 2 ^ 64 → n < 2 ^ 64 → numbers.now ≡ decimal r ++ (45 ∷ decimal n) → result ≡ Some (r, n) }
{
    let (first, second) = dashed(numbers)?;
    Some((number_of(first)?, number_of(second)?))
}

/// What stands round the first dash.
fn dashed(text: &str) -> Option<(&str, &str)>
    ensures { MatchOption result ((a b : List ℕ) → text.now ≢ a ++ (45 ∷ b)) (λ parts. text.now ≡ parts.0.now ++ (45 ∷ parts.1.now)) }
{
    text.split_once("-")
}

/// The number of which this is the decimal: digits without leading zeros, below 2^64.
fn number_of(digits: &str) -> Option<u64>
    ensures spelled { IfSome result (λ n. digits.now ≡ decimal n) }
    ensures every { (n : ℕ) → n < 2 ^ 64 → digits.now ≡ decimal n → result ≡ Some n }
{
    let number = digits.parse::<u64>().ok()?;
    let mut buffer = Buffer::new();
    if buffer.format(number) == digits {
        Some(number)
    } else {
        None
    }
}
