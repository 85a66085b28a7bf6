//! The ring.
use crate::item::OfRegion;
use crate::knows::Knows;
use crate::law::Law;
use crossbeam_queue::RuledArrayQueue;
use std::alloc::Global;
use std::marker::Model;

pub(crate) type Queue<T> = RuledArrayQueue<T, Knows<T>, Law<T>, Global>;

/// The ring. Contracts see which ring it is, and how many items it holds at most.
#[derive(Drop)]
pub struct Ring<T: OfRegion> {
    pub(crate) queue: Queue<T>,
}

impl<T: OfRegion> Model for Ring<T> {
    ghost use Rattle.crossbeam_queue.specs.Passes.{ruled_capacity};
    ghost use Rattle.append_ring.specs.Rules.{RingPlace};

    ghost Value = { RingPlace };

    ghost view = { λ r. record { id = r.queue.table.shared.table_id; capacity = ruled_capacity r.queue } };
}

/// The ring was full. The item comes back.
#[derive(Drop)]
pub struct Full<T> {
    pub item: T,
}
