//! The numbers of a text: 1 to 20 decimal digits with a value below 2^64.

ghost use Rattle.std.specs.Prelude.{◌≡◌, true, false, MatchOption};
ghost use Rattle.script_model.specs.Text.{is_number, number_of};

/// The number that a word is. It counts in 128 bits, and stops as soon as the number is too large.
#[tactic(auto, using(crate::proofs::WordLaws::number_steps))]
pub fn number(word: &[u8]) -> Option<u64>
    ensures { MatchOption result (is_number word.now ≡ false) (λ n. (is_number word.now ≡ true) × (n ≡ number_of word.now)) }
{
    if word.is_empty() || word.len() > 20 {
        return None;
    }
    let mut n: u128 = 0;
    for b in word {
        if *b < b'0' || *b > b'9' {
            return None;
        }
        n = 10 * n + (*b - b'0') as u128;
        if n > 0xFFFF_FFFF_FFFF_FFFF {
            return None;
        }
    }
    Some(n as u64)
}
