//! The berth and the turn.
ghost use Rattle.std.specs.Prelude.{◌≡◌, [], ◌∷◌, None};
ghost use Rattle.log_berth.specs.Words.{nobody};

use crate::known::{Known, Plan};
use crate::law::Law;
use crate::ware::Ware;
use atomic_table::{Seat, Table};
use std::alloc::Global;
use std::marker::Model;

/// The berth: the synced word of each region, the fault word, the turn word, and the ware in its slot. Contracts see which berth it is,
/// and how many regions and seats it has.
#[derive(Drop)]
pub struct Berth<W: Ware> {
    pub(crate) table: Table<Option<W>, Known, Plan, Law<W>, Global>,
    pub(crate) regions: u32,
    pub(crate) seats: u32,
    // The room for the numbers that `close` gives.
    pub(crate) room: Vec<u64>,
}

impl<W: Ware> Model for Berth<W> {
    ghost use Rattle.std.specs.Prelude.{vec_capacity};
    ghost use Rattle.log_berth.specs.Standing.{BerthId, IsBerth};

    ghost Value = { BerthId };

    ghost view = { λ b. record { id = b.table.shared.table_id; regions = b.regions; seats = b.seats } };

    ghost invariant = { λ b. IsBerth b.table.shared.table_id b.table.shared.key.regions b.table.shared.key.seats b.regions b.seats b.room.items (vec_capacity b.room) };
}

/// The ware, out of the berth. It has to be given back.
pub struct Turn<W> {
    pub ware: W,
    pub(crate) slot: Seat<Option<W>, Known>,
    ghost out: { slot.me ≡ (nobody, (0, None) ∷ []) },
}

/// Another seat has the turn.
#[derive(Clone, Copy, Debug, PartialEq, Eq)]
pub struct Busy;
