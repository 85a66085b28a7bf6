//! Words are raised to what a ware tells.
ghost use Rattle.std.specs.Prelude.{◌≡◌, ◌≤◌, ◌<◌, ℕ, true, false, slice_index};
ghost use Rattle.log_berth.specs.Words.{NoMore};
ghost use Rattle.log_berth.specs.Turns.{turn_id};

use log_berth::{Berth, LogSeat as BerthSeat, Turn, Ware};

/// Raises each of the first words to the ware's durable number.
pub fn raise_all<W: Ware>(berth: &Berth<W>, seat: &mut BerthSeat, turn: &Turn<W>, words: u32)
    requires words { words ≤ berth.now.regions }
    requires seat { seat.old.berth ≡ berth.now.id }
    requires turn { (seat.old.knows.turn ≡ true) × (turn_id turn.now ≡ berth.now.id) }
    requires whole { seat.old.knows.broken ≡ false }
    requires below { NoMore seat.old.knows.seen (W.numbers turn.now.ware) }
    ensures seat { (seat.new.berth ≡ seat.old.berth) × (seat.new.knows.turn ≡ true) × (seat.new.knows.broken ≡ false)
        × (seat.new.knows.tally ≡ seat.old.knows.tally) }
    ensures later { NoMore seat.old.knows.seen seat.new.knows.seen }
    ensures below { NoMore seat.new.knows.seen (W.numbers turn.now.ware) }
    ensures all { (i : ℕ) → i < words → slice_index seat.new.knows.seen i ≡ slice_index (W.numbers turn.now.ware) i }
{
    for word in 0..words {
        let number = turn.ware.durable(word + 1);
        berth.raise(seat, turn, word + 1, number);
    }
}

/// Raises the first words to what the ware tells, or sets the fault word where it is broken.
pub fn tell_all<W: Ware>(berth: &Berth<W>, seat: &mut BerthSeat, turn: &Turn<W>, words: u32)
    requires words { words ≤ berth.now.regions }
    requires seat { seat.old.berth ≡ berth.now.id }
    requires turn { (seat.old.knows.turn ≡ true) × (turn_id turn.now ≡ berth.now.id) }
    requires whole { seat.old.knows.broken ≡ false }
    requires below { NoMore seat.old.knows.seen (W.numbers turn.now.ware) }
    ensures seat { (seat.new.berth ≡ seat.old.berth) × (seat.new.knows.turn ≡ true) }
    ensures tally { seat.new.knows.tally ≡ seat.old.knows.tally }
    ensures later { NoMore seat.old.knows.seen seat.new.knows.seen }
    ensures below { NoMore seat.new.knows.seen (W.numbers turn.now.ware) }
    ensures broken { W.is_broken turn.now.ware ≡ seat.new.knows.broken }
    ensures raised { seat.new.knows.broken ≡ false → (i : ℕ) → i < words → slice_index seat.new.knows.seen i ≡ slice_index (W.numbers turn.now.ware) i }
{
    if turn.ware.broken() {
        berth.break_log(seat, turn);
        return;
    }
    raise_all(berth, seat, turn, words);
}
