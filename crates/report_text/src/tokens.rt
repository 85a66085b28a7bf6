//! Bytes as tokens: none is `-`, and a byte that is no plain one is `%` with two upper-case digits.

ghost use Rattle.std.specs.Prelude.{◌≡◌, ◌<◌, ◌++◌, OnOk, take, vec_len};
ghost use Rattle.std.specs.List.{flat_map};
ghost use Rattle.kv_cell.specs.Laws.{AreBytes};
ghost use Rattle.script_model.specs.Text.{escaped, is_plain, printed, upper_hex};

use crate::words::append;
use kv_cell::NoMemory;

/// Whether the byte stands for itself.
fn is_plain_byte(b: u8) -> bool
    ensures { result ≡ is_plain b }
{
    (33..=126).contains(&b) && b != b'%'
}

/// The upper-case hexadecimal digit of a number below 16.
fn hex_digit(n: u8) -> u8
    requires { n < 16 }
    ensures { result ≡ upper_hex n }
{
    if n < 10 { b'0' + n } else { b'A' - 10 + n }
}

fn append_byte(out: &mut Vec<u8>, b: u8) -> Result<(), NoMemory>
    ensures ok { OnOk result (out.new.items ≡ out.old.items ++ escaped b) }
    ensures kept { take (vec_len out.old) out.new.items ≡ out.old.items }
{
    if is_plain_byte(b) {
        append(out, &[b])
    } else {
        append(out, &[b'%', hex_digit(b / 16), hex_digit(b % 16)])
    }
}

fn append_bytes(out: &mut Vec<u8>, bytes: &[u8]) -> Result<(), NoMemory>
    ensures ok { OnOk result (out.new.items ≡ out.old.items ++ flat_map escaped bytes.now) }
    ensures reads { OnOk result (AreBytes bytes.now) }
    ensures kept { take (vec_len out.old) out.new.items ≡ out.old.items }
{
    for b in bytes {
        append_byte(out, *b)?;
    }
    Ok(())
}

/// Appends the bytes as a token. After a refusal the vector begins with what it had.
pub fn append_token(out: &mut Vec<u8>, bytes: &[u8]) -> Result<(), NoMemory>
    ensures ok { OnOk result (out.new.items ≡ out.old.items ++ printed bytes.now) }
    ensures reads { OnOk result (AreBytes bytes.now) }
    ensures kept { take (vec_len out.old) out.new.items ≡ out.old.items }
{
    if bytes.is_empty() {
        append(out, b"-")
    } else if bytes.len() == 1 && bytes[0] == b'-' {
        append(out, b"%2D")
    } else {
        append_bytes(out, bytes)
    }
}
