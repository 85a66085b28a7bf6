//! Words and numbers at the end of a vector of bytes.

ghost use Rattle.std.specs.Prelude.{◌≡◌, ◌<◌, ◌^◌, ◌∷◌, ◌++◌, OnOk, decimal, take, vec_len};

use itoa::Buffer;
use kv_cell::NoMemory;

/// Appends bytes. After a refusal the vector begins with what it had.
pub fn append(out: &mut Vec<u8>, bytes: &[u8]) -> Result<(), NoMemory>
    ensures ok { OnOk result (out.new.items ≡ out.old.items ++ bytes.now) }
    ensures kept { take (vec_len out.old) out.new.items ≡ out.old.items }
{
    out.extend_from_slice(bytes)?;
    Ok(())
}

/// Appends some words and a number.
pub fn append_number(out: &mut Vec<u8>, words: &[u8], n: u64) -> Result<(), NoMemory>
    ensures ok { OnOk result (out.new.items ≡ out.old.items ++ (words.now ++ decimal n)) }
    ensures kept { take (vec_len out.old) out.new.items ≡ out.old.items }
{
    append(out, words)?;
    append(out, Buffer::new().format(n).as_bytes())
}

/// Appends some words and two numbers with a space between them.
pub fn append_numbers(out: &mut Vec<u8>, words: &[u8], n: u64, m: u64) -> Result<(), NoMemory>
    ensures ok { OnOk result (out.new.items ≡ out.old.items ++ (words.now ++ (decimal n ++ (32 ∷ decimal m)))) }
    ensures reads { (n < 2 ^ 64) × (m < 2 ^ 64) }
    ensures kept { take (vec_len out.old) out.new.items ≡ out.old.items }
{
    append_number(out, words, n)?;
    append_number(out, b" ", m)
}
