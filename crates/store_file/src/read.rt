//! Reading a store file.

ghost use Rattle.std.specs.Prelude.{◌≡◌, ◌↔◌, ◌≤◌, ◌<◌, ◌+◌, ◌-◌, ◌^◌, ℕ, List, [], ◌∷◌, length, take, IsTrue, IfOk, IfSome, MatchOption, IsErrOf, vec_len};
ghost use Rattle.log_model.specs.declared.format.TheConstants.{OPEN_GATE};
ghost use Rattle.log_model.specs.StoreText.{IsStore, IsThere, IsStoreText, IsStoreDamaged};
ghost use Rattle.log_model.specs.Files.{Reads};
ghost use Rattle.disk_images.specs.Calls.{HasCause, Looks};
ghost use Rattle.file_base.specs.Looking.{OnlyLooks};
ghost use Rattle.file_base.specs.Refusal.{IfDamaged};
ghost use Rattle.store_file.specs.Text.{store_in};

use crate::list::StoreText;
use crate::reading::parse_store;
use disk_images::{Disk, Name};
use file_base::ReadRefusal;
use kv_cell::NoMemory;
use log_model::OPEN_GATE;
use std::alloc::Global;

/// How many bytes are read at once.
const PIECE: usize = 262_144;

/// Files of so many bytes and more are refused as out of memory.
const TOO_LONG: u64 = 0x8000_0000_0000_0000;

/// Reads a file that is there: its gate, and where that is open the rest, in pieces of 262,144 bytes, up to the size found
/// first. It gives None exactly where the file has no store: at most one byte, or a closed gate. Memory is taken for a store's
/// bytes, once, and for its cells. The disk reads as before.
pub fn read_store<D: Disk>(
    alloc: Global,
    disk: &mut D,
    name: Name,
) -> Result<Option<StoreText>, ReadRefusal>
    requires { IsTrue D.told → ∥ ((c : List ℕ) × Reads (D.view disk.old).files name c) ∥₁ }

    // On any disk what is read is a store of the name's region.
    ensures store { IfOk result (λ text. IfSome text (λ t. IsStore (store_in name.region t))) }

    // What is read stands there, and what is refused as damaged is damaged there.
    ensures text { IsTrue D.told → (c : List ℕ) → Reads (D.view disk.old).files name c → IfOk result (λ text. MatchOption text (IsThere c → ⊥)
        (λ t. IsThere c × IsStoreText name.region c (store_in name.region t))) }
    ensures damaged { IsTrue D.told → (c : List ℕ) → Reads (D.view disk.old).files name c → IfDamaged result (λ at. IsStoreDamaged name.region c at) }
    ensures looks { IsTrue D.told → (c : List ℕ) → Reads (D.view disk.old).files name c → OnlyLooks (length c + 1) (D.view disk.old) (D.view disk.new) }
    ensures cause { HasCause (D.faults disk.old) (D.faults disk.new) (IsErrOf result ReadRefusal.DiskFault) }
{
    let size = disk.size(name)?.unwrap_or(0);
    if size >= TOO_LONG {
        return Err(ReadRefusal::Memory);
    }
    // A store that was not committed may be long, and nothing after its gate counts: the gate is looked at first.
    if size <= 1 || !has_open_gate(disk, name)? {
        return Ok(None);
    }
    let mut bytes = new_bytes(alloc, size as usize)?;
    bytes[0] = OPEN_GATE;
    let len = read_pieces(disk, name, &mut bytes)?;
    parse_store(alloc, name.region, &bytes[..len])
}

/// Whether the file's first byte is an open gate.
fn has_open_gate<D: Disk>(disk: &mut D, name: Name) -> Result<bool, ReadRefusal>
    requires there { IsTrue D.told → ∥ ((c : List ℕ) × Reads (D.view disk.old).files name c) ∥₁ }

    ensures open { IsTrue D.told → (c : List ℕ) → Reads (D.view disk.old).files name c → IfOk result (λ is_open. IsTrue is_open ↔ (take 1 c ≡ OPEN_GATE ∷ [])) }
    ensures undamaged { IfDamaged result (λ at. ⊥) }
    ensures looks { IsTrue D.told → Looks (D.view disk.old) (D.view disk.new) }
    ensures cause { HasCause (D.faults disk.old) (D.faults disk.new) (IsErrOf result ReadRefusal.DiskFault) }
{
    let mut first = [0];
    let n = disk.read(name, 0, &mut first)?;
    Ok(is_open(&first[..n]))
}

fn is_open(bytes: &[u8]) -> bool
    ensures { IsTrue result ↔ (take 1 bytes.now ≡ OPEN_GATE ∷ []) }
{
    !bytes.is_empty() && bytes[0] == OPEN_GATE
}

fn new_bytes(alloc: Global, len: usize) -> Result<Vec<u8>, NoMemory>
    ensures { IfOk result (λ bytes. vec_len bytes ≡ len) }
{
    Ok(vec![in alloc; 0; len]?)
}

/// Reads a file, of which the first byte stands there already, into bytes that are as many as it has, and says how many it read.
fn read_pieces<D: Disk>(disk: &mut D, name: Name, into: &mut [u8]) -> Result<usize, ReadRefusal>
    requires there { IsTrue D.told → ∥ ((c : List ℕ) × Reads (D.view disk.old).files name c) ∥₁ }
    requires size { IsTrue D.told → (c : List ℕ) → Reads (D.view disk.old).files name c → length into.old ≡ length c }
    requires small { length into.old < 2 ^ 63 }
    requires some { 1 ≤ length into.old }
    requires first { IsTrue D.told → (c : List ℕ) → Reads (D.view disk.old).files name c → take 1 into.old ≡ take 1 c }

    ensures within { IfOk result (λ n. n ≤ length into.old) }
    ensures whole { IsTrue D.told → (c : List ℕ) → Reads (D.view disk.old).files name c → IfOk result (λ n. take n into.new ≡ c) }
    ensures undamaged { IfDamaged result (λ at. ⊥) }
    ensures looks { IsTrue D.told → OnlyLooks (length into.old - 1) (D.view disk.old) (D.view disk.new) }
    ensures cause { HasCause (D.faults disk.old) (D.faults disk.new) (IsErrOf result ReadRefusal.DiskFault) }
{
    let mut at = 1;
    while at < into.len() {
        let want = (into.len() - at).min(PIECE);
        let n = disk.read(name, at as u64, &mut into[at..at + want])?;
        if n == 0 {
            break;
        }
        at += n;
    }
    Ok(at)
}
