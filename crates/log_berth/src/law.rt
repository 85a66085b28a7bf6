//! The rule of a berth, and what each of its steps tells. These types are for the proofs alone.
use crate::known::{Known, Plan};
use crate::ware::Ware;
use atomic_table::{Join, Play, Split, TableRule};
use std::marker::PhantomData;

/// The rule of a berth, for any kind of ware.
pub struct Law<W> {
    ware: PhantomData<W>,
}

impl<W: Ware> TableRule<Option<W>, Known, Plan> for Law<W> {
    ghost use Rattle.log_berth.specs.Words.{new_seat, keeps_plan};

    ghost holds = { keeps_plan W.numbers W.is_broken };

    ghost first = { new_seat };
}

/// A load of a synced word.
pub struct SeeWord;

impl<W> Play<Option<W>, Known> for SeeWord {
    ghost use Rattle.log_berth.specs.Words.{sees_word};

    ghost then = { sees_word };
}

/// A load of the fault word.
pub struct SeeFault;

impl<W> Play<Option<W>, Known> for SeeFault {
    ghost use Rattle.log_berth.specs.Words.{sees_fault};

    ghost then = { sees_fault };
}

/// A store into a synced word.
pub struct Raise;

impl<W> Play<Option<W>, Known> for Raise {
    ghost use Rattle.log_berth.specs.Words.{raised};

    ghost then = { raised };
}

/// The store of 1 into the fault word.
pub struct Break;

impl<W> Play<Option<W>, Known> for Break {
    ghost use Rattle.log_berth.specs.Words.{broke};

    ghost then = { broke };
}

/// The exchange on the turn word.
pub struct Take<W> {
    ware: PhantomData<W>,
}

impl<W: Ware> Play<Option<W>, Known> for Take<W> {
    ghost use Rattle.log_berth.specs.Words.{took};

    ghost then = { took W.numbers W.is_broken };
}

/// The store of 0 into the turn word.
pub struct Give;

impl<W> Play<Option<W>, Known> for Give {
    ghost use Rattle.log_berth.specs.Words.{gave};

    ghost then = { gave };
}

/// A seat with one part.
pub struct OnePart;

impl Split<Known> for OnePart {
    ghost use Rattle.log_berth.specs.Words.{less_one, one_part};

    ghost left = { less_one };

    ghost right = { one_part };
}

/// Two seats become one.
impl Join<Known> for OnePart {
    ghost use Rattle.log_berth.specs.Words.{nobody, informed};

    ghost both = { informed };

    ghost spent = { nobody };
}

/// What is known goes to a new seat, and the slots stay.
pub struct Hand;

impl Split<Known> for Hand {
    ghost use Rattle.log_berth.specs.Words.{nobody};

    ghost left = { λ v. nobody };

    ghost right = { λ v. v };
}

impl Join<Known> for Hand {
    ghost use Rattle.log_berth.specs.Words.{nobody};

    ghost both = { λ v w. w };

    ghost spent = { nobody };
}
