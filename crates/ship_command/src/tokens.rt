//! Bytes as tokens: none is `-`, and a byte that is no plain one is `%` with two upper-case digits.

ghost use Rattle.std.specs.Prelude.{◌≡◌, ◌<◌, ◌∷◌, ◌++◌, IsTrue, IsErr, OnOk};
ghost use Rattle.std.specs.List.{flat_map};
ghost use Rattle.disk_images.specs.Calls.{HasCause};
ghost use Rattle.script_model.specs.Text.{escaped, is_plain, printed, upper_hex};
ghost use Rattle.ship_command.specs.Sinks.{IsCutIn};

use crate::held::{Held, put};
use disk_images::{Failed, Sink};

/// Whether the byte stands for itself.
fn is_plain_byte(b: u8) -> bool
    ensures { result ≡ is_plain b }
{
    (33..=126).contains(&b) && b != b'%'
}

/// The upper-case hexadecimal digit of a number below 16.
fn hex_digit(n: u8) -> u8
    requires { n < 16 }
    ensures { result ≡ upper_hex n }
{
    if n < 10 { b'0' + n } else { b'A' - 10 + n }
}

fn put_byte<K: Sink>(out: &mut K, held: &mut Held, b: u8) -> Result<(), Failed>
    ensures ok { IsTrue K.told → OnOk result (K.taken out.new ++ held.new.items ≡ (K.taken out.old ++ held.old.items) ++ escaped b) }
    ensures cut { IsTrue K.told → IsErr result → IsCutIn (K.taken out.new) (K.taken out.old ++ held.old.items) (escaped b) }
    ensures cause { HasCause (K.faults out.old) (K.faults out.new) (IsErr result) }
{
    if is_plain_byte(b) {
        put(out, held, &[b])
    } else {
        put(out, held, &[b'%', hex_digit(b / 16), hex_digit(b % 16)])
    }
}

fn put_bytes<K: Sink>(out: &mut K, held: &mut Held, bytes: &[u8]) -> Result<(), Failed>
    ensures ok { IsTrue K.told
        → OnOk result (K.taken out.new ++ held.new.items ≡ (K.taken out.old ++ held.old.items) ++ flat_map escaped bytes.now) }
    ensures cut { IsTrue K.told → IsErr result → IsCutIn (K.taken out.new) (K.taken out.old ++ held.old.items) (flat_map escaped bytes.now) }
    ensures cause { HasCause (K.faults out.old) (K.faults out.new) (IsErr result) }
{
    for b in bytes {
        put_byte(out, held, *b)?;
    }
    Ok(())
}

/// Holds the bytes as a token.
pub(crate) fn put_token<K: Sink>(out: &mut K, held: &mut Held, bytes: &[u8]) -> Result<(), Failed>
    ensures ok { IsTrue K.told → OnOk result (K.taken out.new ++ held.new.items ≡ (K.taken out.old ++ held.old.items) ++ printed bytes.now) }
    ensures cut { IsTrue K.told → IsErr result → IsCutIn (K.taken out.new) (K.taken out.old ++ held.old.items) (printed bytes.now) }
    ensures cause { HasCause (K.faults out.old) (K.faults out.new) (IsErr result) }
{
    if bytes.is_empty() {
        put(out, held, b"-")
    } else if bytes.len() == 1 && bytes[0] == b'-' {
        put(out, held, b"%2D")
    } else {
        put_bytes(out, held, bytes)
    }
}

/// Holds a space and a token.
pub(crate) fn put_word<K: Sink>(out: &mut K, held: &mut Held, bytes: &[u8]) -> Result<(), Failed>
    ensures ok { IsTrue K.told
        → OnOk result (K.taken out.new ++ held.new.items ≡ (K.taken out.old ++ held.old.items) ++ (32 ∷ printed bytes.now)) }
    ensures cut { IsTrue K.told → IsErr result → IsCutIn (K.taken out.new) (K.taken out.old ++ held.old.items) (32 ∷ printed bytes.now) }
    ensures cause { HasCause (K.faults out.old) (K.faults out.new) (IsErr result) }
{
    put(out, held, b" ")?;
    put_token(out, held, bytes)
}
