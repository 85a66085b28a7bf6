//! Who calls.

use std::marker::Model;

/// A call of a handler; both are counted from 1.
#[derive(Clone, Copy, Debug, PartialEq, Eq)]
pub struct Caller {
    pub handler: u32,
    pub call: u32,
}

impl Model for Caller {
    ghost use Rattle.region_model.specs.Journal.{Caller as TheCaller};

    ghost Value = { TheCaller };

    ghost view = { λ c. record { handler = c.handler; call = c.call } };

    ghost inverse = { λ v. record { handler = v.handler; call = v.call } };
}
