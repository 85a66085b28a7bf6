//! The name of a server's locks.
use std::marker::Brand;

/// Which desks each region's lock has, and which calls are flushes of it. Contracts alone see it, and a call picks it.
pub trait LockNaming {
    ghost use Rattle.std.specs.Prelude.{ℕ, List};
    ghost use Rattle.atomic_table.specs.Seated.{TableId};
    ghost use Rattle.region_model.specs.Journal.{Caller};

    /// By region: the desk of the handlers' lines, and that of the numbers told as spent.
    ghost desk: { ℕ → TableId };

    ghost spent: { ℕ → TableId };

    /// By region: the calls that are flushes of it.
    ghost flushes: { ℕ → List Caller };

    /// How many handlers there are.
    ghost handlers: { ℕ };
}

impl LockNaming for Brand {
    ghost use Rattle.std.specs.Prelude.{[]};
    ghost use Rattle.log_service.specs.Names.{no_table};

    ghost desk = { λ r. no_table };

    ghost spent = { λ r. no_table };

    ghost flushes = { λ r. [] };

    ghost handlers = { 0 };
}
