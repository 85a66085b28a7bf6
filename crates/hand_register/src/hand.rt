//! A hand, and the hands of a new desk.

ghost use Rattle.std.specs.Prelude.{◌≡◌, ◌≤◌, [], ◌∷◌, IfSome, IfNone};

use crate::known::Known;
use atomic_table::Badge;
use std::collections::VecDeque;
use std::marker::Model;

/// A hand of some desk, with a number from 1 on. Contracts see the number, which desk it is of, and its record.
#[derive(Drop)]
pub struct Hand<X> {
    pub(crate) number: u32,
    pub(crate) badge: Badge<Known<X>>,
}

impl<X> Model for Hand<X> {
    ghost use Rattle.std.specs.Prelude.{◌≡◌, ◌-◌, ◌≤◌, [], ◌∷◌};
    ghost use Rattle.hand_register.specs.Rule.{hand_of, view_in};
    ghost use Rattle.hand_register.specs.Views.{HandView};

    ghost Value = { HandView X };

    ghost view = { λ h. record { number = h.number; desk = h.badge.table_id; «record» = (view_in h.badge.views).mine } };

    ghost invariant = { λ h. (1 ≤ h.number) × (h.badge.views ≡ hand_of (h.number - 1) (view_in h.badge.views).mine ∷ []) };
}

/// The hands that are not handed out yet, in order. Contracts see their list.
#[derive(Drop)]
pub struct HandList<X> {
    pub(crate) hands: VecDeque<Hand<X>>,
}

impl<X> Model for HandList<X> {
    ghost use Rattle.std.specs.Prelude.{List};
    ghost use Rattle.hand_register.specs.Views.{HandView};

    ghost Value = { List (HandView X) };

    ghost view = { λ l. l.hands.items };
}

impl<X> Hand<X> {
    pub fn number(&self) -> u32
        ensures number { result ≡ self.now.number }
        ensures given { 1 ≤ result }
    {
        self.number
    }
}

impl<X> HandList<X> {
    /// The next hand, and None exactly after the last.
    pub fn next(&mut self) -> Option<Hand<X>>
        ensures some { IfSome result (λ hand. self.old ≡ hand ∷ self.new) }
        ensures none { IfNone result ((self.old ≡ []) × (self.new ≡ [])) }
    {
        self.hands.pop_front()
    }
}
