//! The words of a run on several disks.

ghost use Rattle.std.specs.Prelude.{◌≡◌, ◌≤◌, ◌↔◌, map, Some, IfSome, IsTrue};
ghost use Rattle.groups_command.specs.Words.{disks_named, number_named};

/// How many disks the words name, 1 to 4: they are one word, the number as a digit.
pub fn disks_in(words: &[&str]) -> Option<u32>
    ensures is { result ≡ disks_named (map (λ w. w.now) words.now) }
    ensures few { IfSome result (λ n. (1 ≤ n) × (n ≤ 4)) }
{
    match words {
        [word] => number_in(word),
        _ => None,
    }
}

fn number_in(word: &str) -> Option<u32>
    ensures is { result ≡ number_named word.now }
    ensures few { IfSome result (λ n. (1 ≤ n) × (n ≤ 4)) }
{
    if word == "1" {
        return Some(1);
    }
    if word == "2" {
        return Some(2);
    }
    if word == "3" {
        return Some(3);
    }
    if word == "4" {
        return Some(4);
    }
    None
}

/// Whether the words name so many disks.
pub(crate) fn name_disks(words: &[&str], count: u32) -> bool
    ensures { IsTrue result ↔ (disks_named (map (λ w. w.now) words.now) ≡ Some count) }
{
    match disks_in(words) {
        Some(named) => named == count,
        None => false,
    }
}
