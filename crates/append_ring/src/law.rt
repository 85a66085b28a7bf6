//! The rule of the ring, and what each of its steps tells. These types are for the proofs alone.
use crate::item::OfRegion;
use crate::knows::Knows;
use crossbeam_queue::protocol::{Join, Lesson, Outcome, Protocol, Split};
use std::marker::{Brand, PhantomData};

/// The rule of the ring, for any kind of item.
pub struct Law<T> {
    item: PhantomData<T>,
}

impl<T: OfRegion> Protocol<T, Knows<T>> for Law<T> {
    ghost use Rattle.append_ring.specs.Rules.{new_pass, Kept};

    ghost holds = { Kept T.place T.number T.is_whole T.in_order };

    ghost first = { new_pass };
}

/// A push, and what is learned where the ring is full.
pub struct Push<T> {
    item: PhantomData<T>,
}

impl<T> Outcome<T, Knows<T>> for Push<T> {
    ghost use Rattle.append_ring.specs.Rules.{HasPushed};

    ghost then = { HasPushed };
}

impl<T: OfRegion> Lesson<T, Knows<T>> for Push<T> {
    ghost use Rattle.append_ring.specs.Rules.{Possible};

    ghost fact = { Possible T.place T.number T.is_whole T.in_order };
}

/// A pop, and what is learned where the ring is empty.
pub struct Pop<T> {
    item: PhantomData<T>,
}

impl<T: OfRegion> Outcome<T, Knows<T>> for Pop<T> {
    ghost use Rattle.append_ring.specs.Rules.{HasPopped};

    ghost then = { HasPopped T.place T.number T.is_whole T.in_order };
}

impl<T: OfRegion> Lesson<T, Knows<T>> for Pop<T> {
    ghost use Rattle.append_ring.specs.Rules.{Possible};

    ghost fact = { Possible T.place T.number T.is_whole T.in_order };
}

/// The numbers before the first ones. The call that makes a ring picks them.
pub trait Bases {
    ghost use Rattle.std.specs.Prelude.{ℕ, List};

    ghost lasts: { List ℕ };
}

impl Bases for Brand {
    ghost use Rattle.std.specs.Prelude.{[]};

    ghost lasts = { [] };
}

/// Lets the first pass know the bases.
pub struct Base<B> {
    bases: PhantomData<B>,
}

impl<T, B: Bases> Split<Knows<T>> for Base<B> {
    ghost use Rattle.append_ring.specs.Rules.{based, nobody};

    ghost left = { λ v. based v B.lasts };

    ghost right = { λ v. nobody };
}

/// Makes the pass of the next region.
pub struct NextRegion;

impl<T> Split<Knows<T>> for NextRegion {
    ghost use Rattle.append_ring.specs.Rules.{one_more, next_region};

    ghost left = { one_more };

    ghost right = { next_region };
}

/// Lets the consumer's pass know what a region pushed.
pub struct Compare;

impl<T> Join<Knows<T>> for Compare {
    ghost use Rattle.append_ring.specs.Rules.{compared, nobody};

    ghost both = { compared };

    ghost spent = { nobody };
}

/// What the consumer's pass learns of the region that it compares.
pub struct Total<T> {
    item: PhantomData<T>,
}

impl<T: OfRegion> Lesson<T, Knows<T>> for Total<T> {
    ghost use Rattle.append_ring.specs.Rules.{Totals};

    ghost fact = { Totals T.place };
}
