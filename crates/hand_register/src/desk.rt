//! The desk.

ghost use Rattle.std.specs.Prelude.{◌≡◌, ◌+◌, ◌<◌, ◌≤◌, [], length, Some, IfOk};

use crate::error::NoMemory;
use crate::hand::{Hand, HandList};
use crate::known::{Adds, Amends, Known, Marks, Meets};
use crate::turns::{Board, hand_back, make, take_in};
use atomic_table::{Badge, Seat, Table};
use std::alloc::Global;
use std::collections::VecDeque;
use std::marker::Model;
use std::mem;

/// The desk of one region. Contracts see which table it is, and each hand's record.
#[derive(Drop)]
pub struct Desk<X: Drop> {
    table: Board<X>,
    seat: Seat<X, Known<X>>,
}

impl<X: Drop> Model for Desk<X> {
    ghost use Rattle.std.specs.Prelude.{◌≡◌, []};
    ghost use Rattle.hand_register.specs.Rule.{desk_of};
    ghost use Rattle.hand_register.specs.Views.{DeskView};

    ghost Value = { DeskView X };

    ghost view = { λ d. record { id = d.seat.table_id; records = d.seat.me.0.all } };

    ghost invariant = { λ d. (d.seat.table_id ≡ d.table.shared.table_id)
        × (d.table.shared.table_id.words ≡ 1)
        × (d.table.shared.table_id.slots ≡ 0)
        × (d.seat.me ≡ (desk_of d.seat.me.0.all d.seat.me.0.outs, [])) };
}

/// A desk and its hands.
#[derive(Drop)]
pub struct DeskParts<X: Drop> {
    pub desk: Desk<X>,
    pub hands: HandList<X>,
}

impl<X: Drop> Desk<X> {
    ghost use Rattle.hand_register.specs.Desks.{AreParts, record_at, with_record, OfDesk, IsSameHand, with_value, with_last, with_mark};

    /// A desk with hands 1 to `hands`, at least one. Each record has the empty list and the mark 0.
    pub fn new(alloc: Global, hands: u32) -> Result<DeskParts<X>, NoMemory>
        requires { 1 ≤ hands }
        ensures { IfOk result (λ parts. AreParts parts hands) }
    {
        let (table, mut seat): (Board<X>, _) = Table::of_words(alloc, &[0], &())?;
        let mut list = VecDeque::new(alloc);
        for made in 0..hands {
            list.reserve(1)?;
            list.push_back_reserved(make(&table, &mut seat, made));
        }
        Ok(DeskParts {
            desk: Desk { table, seat },
            hands: HandList { hands: list },
        })
    }

    /// The desk's record of the hand's number is the hand's record. It takes no memory, as each call below.
    pub fn meet(&mut self, hand: &mut Hand<X>)
        requires { OfDesk self.old hand.old }
        ensures given { 1 ≤ hand.old.number }
        ensures met { record_at self.old.records hand.old.number ≡ Some hand.old.record }
        ensures same { (self.new.records ≡ self.old.records) × (hand.new.record ≡ hand.old.record) }
        ensures still { IsSameHand self.old hand.old self.new hand.new }
    {
        let badge = mem::replace(&mut hand.badge, Badge::blank());
        let table = &self.table;
        take_in(table, &mut self.seat, badge);
        table.shared.load::<Meets>(&mut self.seat, 0);
        hand.badge = hand_back(table, &mut self.seat);
    }

    /// As `meet`; then what the value shows stands after the list in both records.
    pub fn add(&mut self, hand: &mut Hand<X>, value: &X)
        requires { OfDesk self.old hand.old }
        ensures given { 1 ≤ hand.old.number }
        ensures met { record_at self.old.records hand.old.number ≡ Some hand.old.record }
        ensures hand { hand.new.record ≡ with_value hand.old.record value.now }
        ensures desk { self.new.records ≡ with_record self.old.records hand.old.number hand.new.record }
        ensures still { IsSameHand self.old hand.old self.new hand.new }
    {
        let badge = mem::replace(&mut hand.badge, Badge::blank());
        let table = &self.table;
        take_in(table, &mut self.seat, badge);
        table
            .shared
            .compare_exchange_with::<Adds>(&mut self.seat, 0, 0, 0, value);
        hand.badge = hand_back(table, &mut self.seat);
    }

    /// The same, in place of the last value.
    pub fn amend(&mut self, hand: &mut Hand<X>, value: &X)
        requires desk { OfDesk self.old hand.old }
        requires some { 1 ≤ length hand.old.record.list }
        ensures given { 1 ≤ hand.old.number }
        ensures met { record_at self.old.records hand.old.number ≡ Some hand.old.record }
        ensures hand { hand.new.record ≡ with_last hand.old.record value.now }
        ensures desk { self.new.records ≡ with_record self.old.records hand.old.number hand.new.record }
        ensures still { IsSameHand self.old hand.old self.new hand.new }
    {
        let badge = mem::replace(&mut hand.badge, Badge::blank());
        let table = &self.table;
        take_in(table, &mut self.seat, badge);
        table
            .shared
            .compare_exchange_with::<Amends>(&mut self.seat, 0, 0, 0, value);
        hand.badge = hand_back(table, &mut self.seat);
    }

    /// As `meet`; then both records have this mark.
    pub fn mark(&mut self, hand: &mut Hand<X>, mark: u64)
        requires { OfDesk self.old hand.old }
        ensures given { 1 ≤ hand.old.number }
        ensures met { record_at self.old.records hand.old.number ≡ Some hand.old.record }
        ensures hand { hand.new.record ≡ with_mark hand.old.record mark }
        ensures desk { self.new.records ≡ with_record self.old.records hand.old.number hand.new.record }
        ensures still { IsSameHand self.old hand.old self.new hand.new }
    {
        let badge = mem::replace(&mut hand.badge, Badge::blank());
        let table = &self.table;
        take_in(table, &mut self.seat, badge);
        table.shared.store::<Marks>(&mut self.seat, 0, mark);
        hand.badge = hand_back(table, &mut self.seat);
    }
}
