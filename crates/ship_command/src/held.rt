//! Bytes on their way to a sink, of which some are held in a small array, so that a sink is written to seldom and no memory is
//! taken.

ghost use Rattle.std.specs.Prelude.{◌≡◌, [], ◌∷◌, ◌++◌, decimal, IsTrue, IsErr, OnOk};
ghost use Rattle.disk_images.specs.Calls.{HasCause};
ghost use Rattle.ship_command.specs.Sinks.{IsCutIn};

use arrayvec::ArrayVec;
use command_base::write_all;
use disk_images::{Failed, Sink};
use itoa::Buffer;

/// Bytes that are still to be written to a sink.
pub(crate) type Held = ArrayVec<u8, 512>;

/// Writes what is held to the sink.
pub(crate) fn send<K: Sink>(out: &mut K, held: &mut Held) -> Result<(), Failed>
    ensures ok { IsTrue K.told → OnOk result (K.taken out.new ≡ K.taken out.old ++ held.old.items) }
    ensures cut { IsTrue K.told → IsErr result → IsCutIn (K.taken out.new) (K.taken out.old) held.old.items }
    ensures none { OnOk result (held.new.items ≡ []) }
    ensures cause { HasCause (K.faults out.old) (K.faults out.new) (IsErr result) }
{
    write_all(out, held.as_slice())?;
    held.clear();
    Ok(())
}

/// Holds the bytes, after what is held. Where they don't fit, what is held is written to the sink, and they after it.
pub(crate) fn put<K: Sink>(out: &mut K, held: &mut Held, bytes: &[u8]) -> Result<(), Failed>
    ensures ok { IsTrue K.told → OnOk result (K.taken out.new ++ held.new.items ≡ (K.taken out.old ++ held.old.items) ++ bytes.now) }
    ensures cut { IsTrue K.told → IsErr result → IsCutIn (K.taken out.new) (K.taken out.old ++ held.old.items) bytes.now }
    ensures cause { HasCause (K.faults out.old) (K.faults out.new) (IsErr result) }
{
    if held.try_extend_from_slice(bytes).is_ok() {
        return Ok(());
    }
    send(out, held)?;
    write_all(out, bytes)
}

/// Holds some words and a number.
pub(crate) fn put_number<K: Sink>(
    out: &mut K,
    held: &mut Held,
    words: &[u8],
    n: u64,
) -> Result<(), Failed>
    ensures ok { IsTrue K.told
        → OnOk result (K.taken out.new ++ held.new.items ≡ (K.taken out.old ++ held.old.items) ++ (words.now ++ decimal n)) }
    ensures cut { IsTrue K.told → IsErr result → IsCutIn (K.taken out.new) (K.taken out.old ++ held.old.items) (words.now ++ decimal n) }
    ensures cause { HasCause (K.faults out.old) (K.faults out.new) (IsErr result) }
{
    put(out, held, words)?;
    put(out, held, Buffer::new().format(n).as_bytes())
}

/// Holds some words and two numbers with a space between them.
pub(crate) fn put_numbers<K: Sink>(
    out: &mut K,
    held: &mut Held,
    words: &[u8],
    n: u64,
    m: u64,
) -> Result<(), Failed>
    ensures ok { IsTrue K.told → OnOk result
        (K.taken out.new ++ held.new.items ≡ (K.taken out.old ++ held.old.items) ++ (words.now ++ (decimal n ++ (32 ∷ decimal m)))) }
    ensures cut { IsTrue K.told → IsErr result → IsCutIn (K.taken out.new) (K.taken out.old ++ held.old.items) (words.now ++ (decimal n ++ (32 ∷ decimal m))) }
    ensures cause { HasCause (K.faults out.old) (K.faults out.new) (IsErr result) }
{
    put_number(out, held, words, n)?;
    put_number(out, held, b" ", m)
}
