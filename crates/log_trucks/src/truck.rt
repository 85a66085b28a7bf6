//! A truck.

ghost use Rattle.std.specs.Prelude.{◌≡◌, []};

use entry_frame::EntryBytes;
use seq_accounting::FamilyMarks;
use std::fmt;
use std::marker::Model;

/// An entry on its way: its region, its number there, its bytes, the memory for noting the families of its cells, and the
/// next truck of a chain. Contracts see region, number, bytes and families, and the list of what stands after it.
///
/// A truck is let go by a loop, which takes those after it one after the other: it may stand before a million others.
pub struct Truck {
    /// 1 to 64.
    pub region: u32,
    /// 1 to 2^48-1.
    pub number: u64,
    pub bytes: EntryBytes,
    /// The families of its cells, until the entry is noted; then none.
    pub marks: FamilyMarks,
    pub next: Option<Box<Truck>>,
}

impl Model for Truck {
    ghost use Rattle.std.specs.Prelude.{length};
    ghost use Rattle.std.proofs.Common.{arith};
    ghost use Rattle.log_trucks.specs.Held.{Haul};

    ghost Value = { Haul };

    ghost use Rattle.log_trucks.specs.Links.{linked};

    ghost view = { λ t. record { region = t.region; number = t.number; bytes = t.bytes; families = t.marks; behind = linked t.next } };

    ghost size = { λ t. length t.behind };

    ghost size_decreases = { λ a h. Prim.grind arith };
}

impl Truck {
    /// Its marks, which are gone from it.
    pub fn take_marks(&mut self) -> FamilyMarks
        ensures taken { result ≡ self.old.families }
        ensures left { self.new ≡ record self.old { families = [] } }
    {
        std::mem::replace(&mut self.marks, FamilyMarks::none())
    }
}

impl Drop for Truck {
    fn drop(mut self) {
        loop {
            let Truck {
                region: _,
                number: _,
                bytes: _,
                marks: _,
                next,
            } = self;
            match next {
                Some(truck) => self = Box::into_inner(truck),
                None => return,
            }
        }
    }
}

/// Region, number and length, and nothing of what stands after it.
impl fmt::Debug for Truck {
    fn fmt<W: fmt::Write>(&self, f: &mut fmt::Formatter<W>) -> fmt::Result {
        let region = self.region;
        let number = self.number;
        let bytes = self.bytes.len();
        write!(
            f,
            "a truck of region {region}, number {number}, {bytes} bytes"
        )
    }
}
