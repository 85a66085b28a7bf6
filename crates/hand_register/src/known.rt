//! What a seat at the desk's table knows, the rule of the table, and its kinds of step.

use atomic_table::{Join, Play, Split, TableRule};
use std::collections::LinkedList;

/// What is kept of one hand: its values in order, and its mark. No value of this type is made.
pub struct Record<X> {
    pub list: LinkedList<X>,
    pub mark: u64,
}

/// What a seat knows. Role 1 is the desk's seat, 2 a hand's, and 0 nobody's. No value of this type is made.
pub struct Known<X> {
    pub role: u64,
    /// The place of a hand's record at the desk, or that of the hand which is in a call there.
    pub place: u64,
    /// The record of that hand.
    pub mine: Record<X>,
    /// Of the desk alone: whether a hand is in a call, each hand's record, and whether that hand is away from the desk.
    pub inside: bool,
    pub all: LinkedList<Record<X>>,
    pub outs: LinkedList<bool>,
}

/// Each hand has one seat, none while it is in a call, and its record is the desk's.
pub(crate) struct Law;

impl<X> TableRule<X, Known<X>, ()> for Law {
    ghost use Rattle.hand_register.specs.Rule.{Kept, opening_desk};

    ghost holds = { λ _ s. Kept s };

    ghost first = { λ _. opening_desk };
}

/// A new hand is made.
pub(crate) struct Makes;

impl<X> Split<Known<X>> for Makes {
    ghost use Rattle.hand_register.specs.Rule.{with_one_more, newest};

    ghost left = { with_one_more };

    ghost right = { newest };
}

/// A hand comes to the desk.
pub(crate) struct Comes;

impl<X> Join<Known<X>> for Comes {
    ghost use Rattle.hand_register.specs.Rule.{received, nobody};

    ghost both = { received };

    ghost spent = { nobody };
}

/// The hand goes again.
pub(crate) struct Goes;

impl<X> Split<Known<X>> for Goes {
    ghost use Rattle.hand_register.specs.Rule.{sent, handed_back};

    ghost left = { sent };

    ghost right = { handed_back };
}

/// The desk tells that its record is the hand's.
pub(crate) struct Meets;

impl<X> Play<X, Known<X>> for Meets {
    ghost use Rattle.hand_register.specs.Rule.{Met};

    ghost then = { Met };
}

/// It tells so, and puts a value after both lists.
pub(crate) struct Adds;

impl<X> Play<X, Known<X>> for Adds {
    ghost use Rattle.hand_register.specs.Rule.{Added};

    ghost then = { Added };
}

/// It tells so, and puts a value in place of the last one of both.
pub(crate) struct Amends;

impl<X> Play<X, Known<X>> for Amends {
    ghost use Rattle.hand_register.specs.Rule.{Amended};

    ghost then = { Amended };
}

/// It tells so, and sets both marks.
pub(crate) struct Marks;

impl<X> Play<X, Known<X>> for Marks {
    ghost use Rattle.hand_register.specs.Rule.{Marked};

    ghost then = { Marked };
}
