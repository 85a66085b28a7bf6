//! The words of the command.

ghost use Rattle.std.specs.Prelude.{◌≡◌, ◌<◌, ◌^◌};
ghost use Rattle.std.specs.Option.{option_map};
ghost use Rattle.log_tail.specs.Position.{position_of};
ghost use Rattle.ship_command.specs.Words.{number_within as the_number_within, position_word};

use log_tail::Position;
use script_text::number;

/// The greatest number of a log in the words of the command. The entries before a position are fewer.
const MOST: u64 = 1 << 63;

/// The position that two words name: the number of a log from 1 to 2^63, and how many of its entries stand before it, below
/// 2^63. None where one of them is no such number.
pub fn read_position(file: &str, entries: &str) -> Option<Position>
    ensures { option_map position_of result ≡ position_word file.now entries.now }
{
    let file = number_within(1, MOST, file)?;
    let entries = number_within(0, MOST - 1, entries)?;
    Some(Position { file, entries })
}

/// The number that a word is, where it is at least the first and at most the second one.
#[tactic(auto, using(std::proofs::lemmas::Bool::Decides::nat_tests))]
fn number_within(least: u64, most: u64, word: &str) -> Option<u64>
    ensures { result ≡ the_number_within least most word.now }
{
    let n = number(word.as_bytes())?;
    if n < least || n > most {
        return None;
    }
    Some(n)
}
