//! The tokens of a text: `-` for no bytes, else bytes that stand for themselves, and `%` with two hexadecimal digits
//! of either case for any byte.

ghost use Rattle.std.specs.Prelude.{◌≡◌, ℕ, ◌+◌, ◌<◌, ◌≤◌, ◌∷◌, List, Some, None, IfOk, IfSome, IsTrue, MatchOption, length, drop, slice_index, true};
ghost use Rattle.std.specs.Option.{option_map};
ghost use Rattle.script_model.specs.Text.{hex_of, is_plain, token_of, unescaped};

use kv_cell::{NoMemory, Octets};
use std::alloc::Global;

/// The value of a hexadecimal digit.
fn hex(b: u8) -> Option<u8>
    ensures value { MatchOption result (hex_of b ≡ None) (λ n. hex_of b ≡ Some n) }
    ensures below { IfSome result (λ n. n < 16) }
{
    match b {
        b'0'..=b'9' => Some(b - b'0'),
        b'A'..=b'F' => Some(b - b'A' + 10),
        b'a'..=b'f' => Some(b - b'a' + 10),
        _ => None,
    }
}

/// Whether the byte stands for itself.
fn plain(b: u8) -> bool
    ensures { result ≡ is_plain b }
{
    b'!' <= b && b <= b'~' && b != b'%'
}

/// The byte that stands first, and how many bytes it takes.
fn first_byte(rest: &[u8]) -> Option<(u8, usize)>
    requires { 0 < length rest.now }
    ensures value { MatchOption result (unescaped rest.now ≡ None)
        (λ x. unescaped rest.now ≡ option_map (λ (t : List ℕ). x.0 ∷ t) (unescaped (drop x.1 rest.now))) }
    ensures within { IfSome result (λ x. (0 < x.1) × (x.1 ≤ length rest.now)) }
{
    let b = rest[0];
    if plain(b) {
        return Some((b, 1));
    }
    if b != b'%' || rest.len() < 3 {
        return None;
    }
    let Some(high) = hex(rest[1]) else {
        return None;
    };
    let Some(low) = hex(rest[2]) else {
        return None;
    };
    Some((16 * high + low, 3))
}

/// Whether each byte stands for itself.
fn are_plain(word: &[u8]) -> bool
    ensures { IsTrue result → (k : ℕ) → k < length word.now → is_plain (slice_index word.now k) ≡ true }
{
    for b in word {
        if !plain(*b) {
            return false;
        }
    }
    true
}

/// The bytes that a token stands for. Memory is taken for more than 16 of them, and for a token in which a byte is escaped.
pub fn token(alloc: Global, word: &[u8]) -> Result<Option<Octets>, NoMemory>
    ensures { IfOk result (λ told. MatchOption told (token_of word.now ≡ None) (λ bytes. token_of word.now ≡ Some bytes)) }
{
    if word.is_empty() {
        return Ok(None);
    }
    if word.len() == 1 && word[0] == b'-' {
        return Ok(Some(Octets::of(Vec::new(alloc))));
    }
    unescape(alloc, word)
}

/// The bytes of a token that isn't `-`. One whose bytes stand for themselves is copied as it is.
fn unescape(alloc: Global, word: &[u8]) -> Result<Option<Octets>, NoMemory>
    ensures { IfOk result (λ told. MatchOption told (unescaped word.now ≡ None) (λ bytes. unescaped word.now ≡ Some bytes)) }
{
    if are_plain(word) {
        return Ok(Some(Octets::copy_of(alloc, word)?));
    }
    unescape_each(alloc, word)
}

/// The bytes of such a token, one after the other.
fn unescape_each(alloc: Global, word: &[u8]) -> Result<Option<Octets>, NoMemory>
    ensures { IfOk result (λ told. MatchOption told (unescaped word.now ≡ None) (λ bytes. unescaped word.now ≡ Some bytes)) }
{
    let mut bytes: Vec<u8> = Vec::with_capacity(alloc, word.len())?;
    let mut rest = word;
    while !rest.is_empty() {
        let Some((b, n)) = first_byte(rest) else {
            return Ok(None);
        };
        bytes.push(b)?;
        rest = &rest[n..];
    }
    Ok(Some(Octets::of(bytes)))
}
