//! How a hand's seat comes to the desk's and goes again.

ghost use Rattle.std.specs.Prelude.{◌≡◌, ◌+◌, ◌<◌, ◌^◌, [], ◌∷◌, length, true};
ghost use Rattle.hand_register.specs.Rule.{empty, desk_of, with_one_more, view_in, received, sent, handed_back};

use crate::hand::Hand;
use crate::known::{Comes, Goes, Known, Law, Makes};
use atomic_table::{Badge, Seat, Table};
use std::alloc::Global;

/// The table of one desk: one word, no slot.
pub(crate) type Board<X> = Table<X, Known<X>, (), Law, Global>;

/// A hand's seat comes to the desk's.
pub(crate) fn take_in<X: Drop>(
    table: &Board<X>,
    seat: &mut Seat<X, Known<X>>,
    badge: Badge<Known<X>>,
)
    requires table { (seat.old.table_id ≡ table.now.shared.table_id) × (badge.table_id ≡ table.now.shared.table_id) × (0 < table.now.shared.table_id.words) }
    requires desk { (seat.old.me.0.role ≡ 1) × (seat.old.me.1 ≡ []) }
    requires hand { (badge.views ≡ view_in badge.views ∷ []) × ((view_in badge.views).role ≡ 2) }
    ensures same { seat.new.table_id ≡ seat.old.table_id }
    ensures came { seat.new.me ≡ (received seat.old.me.0 (view_in badge.views), []) }
{
    table.shared.join_seat::<Comes>(seat, badge.into_seat());
}

/// And it goes again.
pub(crate) fn hand_back<X: Drop>(table: &Board<X>, seat: &mut Seat<X, Known<X>>) -> Badge<Known<X>>
    requires table { (seat.old.table_id ≡ table.now.shared.table_id) × (0 < table.now.shared.table_id.words) }
    requires desk { (seat.old.me.0.role ≡ 1) × (seat.old.me.0.inside ≡ true) × (seat.old.me.1 ≡ []) }
    ensures same { (seat.new.table_id ≡ seat.old.table_id) × (result.table_id ≡ seat.old.table_id) }
    ensures went { seat.new.me ≡ (sent seat.old.me.0, []) }
    ensures hand { result.views ≡ handed_back seat.old.me.0 ∷ [] }
{
    table.shared.split_seat::<Goes>(seat).into_badge()
}

/// A new hand. Its number is one more than the hands made before.
pub(crate) fn make<X: Drop>(table: &Board<X>, seat: &mut Seat<X, Known<X>>, made: u32) -> Hand<X>
    requires table { (seat.old.table_id ≡ table.now.shared.table_id) × (0 < table.now.shared.table_id.words) }
    requires desk { (seat.old.me ≡ (desk_of seat.old.me.0.all seat.old.me.0.outs, [])) × (length seat.old.me.0.all ≡ made) }
    requires limit { made + 1 < 2 ^ 32 }
    ensures same { seat.new.table_id ≡ seat.old.table_id }
    ensures desk { seat.new.me ≡ (with_one_more seat.old.me.0, []) }
    ensures hand { (result.number ≡ made + 1) × (result.record ≡ empty) × (result.desk ≡ seat.old.table_id) }
{
    Hand {
        number: made + 1,
        badge: table.shared.split_seat::<Makes>(seat).into_badge(),
    }
}
