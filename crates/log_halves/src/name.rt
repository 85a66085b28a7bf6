//! The name of a service.
use std::marker::Brand;

/// Which rings they are, and with what a service began. Contracts alone see it, and a call picks it.
pub trait ServiceNaming {
    ghost use Rattle.std.specs.Prelude.{◌≡◌, ℕ, List, Option, Some, None, true};
    ghost use Rattle.atomic_table.specs.Seated.{TableId};
    ghost use Rattle.append_ring.specs.declared.knows.Knows.{Knows};
    ghost use Rattle.append_ring.specs.Rules.{HasPopped};
    ghost use Rattle.log_model.specs.Files.{Files};
    ghost use Rattle.log_halves.specs.declared.item.Item.{Item as TheItem};
    ghost use Rattle.log_halves.specs.Items.{region_of, number_of, IsWholeItem};

    /// The ring of the regions, and the ring of chains.
    ghost ring: { TableId };

    ghost chain_ring: { TableId };

    /// The number before each region's first drawn one, region 1 first.
    ghost lasts: { List ℕ };

    /// The files as they read when the device was started, the moment at which it stood, and how often its disk had failed.
    ghost begun: { Files };

    ghost start: { ℕ };

    ghost faults: { ℕ };

    /// What a crash could leave at each moment up to the start.
    ghost past: { ℕ → Files → Type 0 };

    /// These items came out of the ring, in this order, and the last of them may be held. Nothing but a pop of that ring shows that more came:
    /// whoever has a name knows no more of it than the two laws say.
    ghost came: { List TheItem → Option TheItem → Type 0 };

    /// The item that the ring's consumer popped is held.
    ghost came_out: { (v w : Knows TheItem) (x : TheItem) → v.pops ≡ true → came v.popped None
        → HasPopped region_of number_of IsWholeItem (λ _ _. Unit {0}) v x w → came w.popped (Some x) };

    /// The held item is put into the chain, or noted.
    ghost came_in: { (xs : List TheItem) (x : TheItem) → came xs (Some x) → came xs None };
}

impl ServiceNaming for Brand {
    ghost use Rattle.std.specs.Prelude.{[]};
    ghost use Rattle.log_halves.specs.Names.{no_table, no_files, no_past};

    ghost ring = { no_table };

    ghost chain_ring = { no_table };

    ghost lasts = { [] };

    ghost begun = { no_files };

    ghost start = { 0 };

    ghost faults = { 0 };

    ghost past = { no_past };

    ghost came = { λ _ _. Unit {0} };

    ghost came_out = { λ v w x pops was got. tt };

    ghost came_in = { λ xs x was. tt };
}
