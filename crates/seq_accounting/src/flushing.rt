//! A flush that is under way.

ghost use Rattle.std.specs.Prelude.{◌≡◌, ◌≤◌, ◌↔◌, [], length, IfOk, IsTrue};
ghost use Rattle.seq_accounting.specs.Rooms.{flush_of, IsRoom};

use crate::error::NoMemory;
use crate::mark::Mark;
use std::alloc::Global;
use std::marker::Model;

/// A flush of a region up to a number that is under way, of one family or of all. It can't be let go: only
/// `Accounting::complete_flush` and `Accounting::abort_flush` spend it. It holds the memory that completing it takes.
pub struct Flushing {
    region: u32,
    number: u64,
    room: Option<MarkRoom>,
}

/// The room for a family's flushed number, and for that it has no number left that isn't flushed.
#[derive(Drop)]
pub(crate) struct MarkRoom {
    pub(crate) flushed: Box<Mark>,
    pub(crate) oldest: Box<Mark>,
}

impl Model for Flushing {
    ghost use Rattle.std.specs.Prelude.{◌≤◌};
    ghost use Rattle.seq_accounting.specs.Accounts.{Flush};

    ghost Value = { Flush };

    ghost use Rattle.seq_accounting.specs.Rooms.{family_of, IsRoom};

    ghost view = { λ f. record { region = f.region; family = family_of f.room; number = f.number } };

    ghost invariant = { λ f. (f.region ≤ 64) × (1 ≤ f.number) × IsRoom f.region f.number f.room };
}

impl Flushing {
    /// A flush of all families of a region.
    pub(crate) fn of_all(region: u32, number: u64) -> Flushing
        requires region { region ≤ 64 }
        requires number { 1 ≤ number }
        ensures { result ≡ record { region = region; family = []; number = number } }
    {
        Flushing {
            region,
            number,
            room: None,
        }
    }

    /// A flush of one family, with its room.
    pub(crate) fn of_family(
        alloc: Global,
        region: u32,
        family: &[u8],
        number: u64,
    ) -> Result<Flushing, NoMemory>
        requires region { region ≤ 64 }
        requires family { 1 ≤ length family.now }
        requires number { 1 ≤ number }
        ensures { IfOk result (λ flushing. flushing ≡ record { region = region; family = family.now; number = number }) }
    {
        let room = FlushRoom::new(alloc, family)?;
        Ok(room.begin(region, number))
    }

    pub(crate) fn spend(self) -> Spent
        ensures flush { flush_of result ≡ self }
        ensures within { result.region ≤ 64 }
        ensures given { 1 ≤ result.number }
        ensures room { IsRoom result.region result.number result.room }
    {
        let Flushing {
            region,
            number,
            room,
        } = self;
        Spent {
            region,
            number,
            room,
        }
    }

    /// The region that is flushed.
    pub fn region(&self) -> u32
        ensures region { result ≡ self.now.region }
        ensures within { result ≤ 64 }
    {
        self.region
    }

    /// The number that the region, or its family, is flushed up to once this is completed.
    pub fn number(&self) -> u64
        ensures number { result ≡ self.now.number }
        ensures given { 1 ≤ result }
    {
        self.number
    }
}

/// The memory that a flush of one family takes, or of all where it is empty. It may be let go.
#[derive(Drop)]
pub struct FlushRoom {
    room: Option<MarkRoom>,
}

impl Model for FlushRoom {
    ghost use Rattle.std.specs.Prelude.{List, ℕ};

    ghost Value = { List ℕ };

    ghost use Rattle.seq_accounting.specs.Rooms.{family_of, AreMarks};

    ghost view = { λ f. family_of f.room };

    ghost invariant = { λ f. AreMarks f.room };
}

impl FlushRoom {
    /// The room of a family, or of all where it is empty, which takes none.
    pub fn new(alloc: Global, family: &[u8]) -> Result<FlushRoom, NoMemory>
        ensures { IfOk result (λ room. room ≡ family.now) }
    {
        if family.is_empty() {
            return Ok(FlushRoom { room: None });
        }
        let flushed = Mark::new(alloc, 0, family, 0)?;
        let oldest = Mark::new(alloc, 0, family, 0)?;
        Ok(FlushRoom {
            room: Some(MarkRoom { flushed, oldest }),
        })
    }

    /// Whether it is of all families.
    pub fn is_of_all(&self) -> bool
        ensures { IsTrue result ↔ (self.now ≡ []) }
    {
        self.room.is_none()
    }

    /// A flush with this room. It takes no memory.
    pub(crate) fn begin(self, region: u32, number: u64) -> Flushing
        requires region { region ≤ 64 }
        requires number { 1 ≤ number }
        ensures { result ≡ record { region = region; family = self; number = number } }
    {
        let FlushRoom { room } = self;
        match room {
            Some(room) => {
                let MarkRoom {
                    mut flushed,
                    mut oldest,
                } = room;
                flushed.renumber(region, number);
                oldest.renumber(region, 0);
                Flushing {
                    region,
                    number,
                    room: Some(MarkRoom { flushed, oldest }),
                }
            }
            None => Flushing::of_all(region, number),
        }
    }
}

/// What a flush held.
#[derive(Drop)]
pub(crate) struct Spent {
    pub(crate) region: u32,
    pub(crate) number: u64,
    pub(crate) room: Option<MarkRoom>,
}
