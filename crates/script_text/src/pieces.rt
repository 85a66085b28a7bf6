//! Lines of a text and words of a line.

ghost use Rattle.std.specs.Prelude.{◌≡◌, ◌≢◌, ℕ, ◌+◌, ◌<◌, ◌≤◌, ◌∷◌, length, map, slice_index, take, drop, OnOk};
ghost use Rattle.script_model.specs.Text.{lines_of, words_of};

use kv_cell::NoMemory;

/// The place of the first such byte, or how many bytes there are.
fn find(bytes: &[u8], byte: u8) -> usize
    ensures within { result ≤ length bytes.now }
    ensures before { (k : ℕ) → k < result → slice_index bytes.now k ≢ byte }
    ensures found { result < length bytes.now → slice_index bytes.now result ≡ byte }
{
    for (i, b) in bytes.iter().enumerate() {
        if *b == byte {
            return i;
        }
    }
    bytes.len()
}

/// The bytes in front of the first such byte, and those after it.
fn cut(bytes: &[u8], byte: u8) -> (&[u8], &[u8])
    ensures at { (length result.0.now ≤ length bytes.now)
        × ((result.0.now ≡ take (length result.0.now) bytes.now) × (result.1.now ≡ drop (length result.0.now + 1) bytes.now)) }
    ensures before { (k : ℕ) → k < length result.0.now → slice_index bytes.now k ≢ byte }
    ensures found { length result.0.now < length bytes.now → slice_index bytes.now (length result.0.now) ≡ byte }
{
    let n = find(bytes, byte);
    if n < bytes.len() {
        (&bytes[..n], &bytes[n + 1..])
    } else {
        (bytes, &bytes[n..])
    }
}

/// The first line of a text that has one, and the text after it.
pub fn next_line(text: &[u8]) -> (&[u8], &[u8])
    requires { 0 < length text.now }
    ensures lines { lines_of text.now ≡ result.0.now ∷ lines_of result.1.now }
    ensures shorter { length result.1.now < length text.now }
{
    cut(text, b'\n')
}

/// Puts the words of a line into this list, in place of those that it has.
pub fn split_words<'a>(line: &'a [u8], words: &mut Vec<&'a [u8]>) -> Result<(), NoMemory>
    ensures { OnOk result (map (λ w. w.now) words.new.items ≡ words_of line.now) }
{
    words.clear();
    let mut rest = line;
    while !rest.is_empty() {
        let (word, behind) = cut(rest, b' ');
        if !word.is_empty() {
            words.push(word)?;
        }
        rest = behind;
    }
    Ok(())
}
