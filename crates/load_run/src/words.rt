//! The words of a command.

ghost use Rattle.std.specs.Prelude.{◌≡◌, [], ◌∷◌, map, IfOk, IfSome};
ghost use Rattle.std.specs.Option.{option_map};
ghost use Rattle.ship_command.specs.Words.{position_word};
ghost use Rattle.load_run.specs.Words.{word_of, plain_word, load_word, names_load, meaning_of, To_ship, kind_word, region_word, compact_word, IsRegion, IsRight};

use compact_command::CompactKind;
use kv_cell::NoMemory;
use load_command::LoadOptions;
use load_words::{WordsRefusal, read_load};
use script_text::number;
use ship_command::{Position, read_position};
use std::alloc::Global;

/// A command.
#[derive(Clone, Copy, Debug, PartialEq, Eq)]
pub enum Word {
    /// Writes the puts of a script into a new log.
    Log,
    /// Prints what a log holds.
    Show,
    /// Prints the entries of the log of this number as they stand in its file.
    Dump { number: u64 },
    /// Prints the entries that stand after this position in the logs, and records between them.
    Ship { from: Position },
    /// Opens a store, and prints how far each region goes.
    Recover,
    /// Opens a store, and compacts the store files of a region, 1 to 64, into one.
    Compact { kind: CompactKind, region: u32 },
    /// Runs the handlers of a script on a store, and reports.
    Run,
    /// Makes a script of these numbers, runs it on an empty store, and counts.
    Load { options: LoadOptions },
}

/// The command that the words name. Memory is wanted for those of `load` alone.
pub fn read_words<'a>(alloc: Global, words: &'a [&'a str]) -> Result<Option<Word>, NoMemory>
    ensures named { IfOk result (λ word. option_map meaning_of word ≡ word_of (map (λ w. w.now) words.now)) }
    ensures right { IfOk result (λ word. IfSome word IsRight) }
{
    if begins_load(words) {
        read_load_words(alloc, words)
    } else {
        Ok(read_plain(words))
    }
}

/// Whether the first word is that of `load`.
fn begins_load(words: &[&str]) -> bool
    ensures { result ≡ names_load (map (λ w. w.now) words.now) }
{
    match words {
        [] => false,
        [word, ..] => is_load(word),
    }
}

fn is_load(word: &str) -> bool
    ensures { result ≡ names_load (word.now ∷ []) }
{
    word == "load"
}

/// The options of `load`. Words that `clap` doesn't take name no command.
fn read_load_words<'a>(alloc: Global, words: &'a [&'a str]) -> Result<Option<Word>, NoMemory>
    ensures named { IfOk result (λ word. option_map meaning_of word ≡ load_word (map (λ w. w.now) words.now)) }
    ensures right { IfOk result (λ word. IfSome word IsRight) }
{
    match read_load(alloc, words) {
        Ok(options) => Ok(Some(Word::Load { options })),
        Err(WordsRefusal::Usage) => Ok(None),
        Err(WordsRefusal::Memory) => Err(NoMemory),
    }
}

/// The other commands.
fn read_plain(words: &[&str]) -> Option<Word>
    ensures named { option_map meaning_of result ≡ plain_word (map (λ w. w.now) words.now) }
    ensures right { IfSome result IsRight }
{
    match words {
        [word] => read_word(word),
        [word, operand] => read_pair(word, operand),
        [word, first, second] => read_triple(word, first, second),
        _ => None,
    }
}

fn read_word(word: &str) -> Option<Word>
    ensures named { option_map meaning_of result ≡ plain_word (word.now ∷ []) }
    ensures right { IfSome result IsRight }
{
    if word == "log" {
        return Some(Word::Log);
    }
    if word == "show" {
        return Some(Word::Show);
    }
    if word == "recover" {
        return Some(Word::Recover);
    }
    if word == "run" {
        return Some(Word::Run);
    }
    None
}

fn read_pair(word: &str, operand: &str) -> Option<Word>
    ensures named { option_map meaning_of result ≡ plain_word (word.now ∷ operand.now ∷ []) }
    ensures right { IfSome result IsRight }
{
    if word != "dump" {
        return None;
    }
    match number(operand.as_bytes()) {
        Some(number) => Some(Word::Dump { number }),
        None => None,
    }
}

fn read_triple(word: &str, first: &str, second: &str) -> Option<Word>
    ensures named { option_map meaning_of result ≡ plain_word (word.now ∷ first.now ∷ second.now ∷ []) }
    ensures right { IfSome result IsRight }
{
    if word == "ship" {
        return read_ship(first, second);
    }
    if word == "compact" {
        return read_compact(first, second);
    }
    None
}

fn read_ship(file: &str, entries: &str) -> Option<Word>
    ensures named { option_map meaning_of result ≡ option_map To_ship (position_word file.now entries.now) }
    ensures right { IfSome result IsRight }
{
    match read_position(file, entries) {
        Some(from) => Some(Word::Ship { from }),
        None => None,
    }
}

/// The kind of a compaction, and a region from 1 to 64.
fn read_compact(kind: &str, region: &str) -> Option<Word>
    ensures named { option_map meaning_of result ≡ compact_word kind.now region.now }
    ensures right { IfSome result IsRight }
{
    let kind = read_kind(kind)?;
    let region = read_region(region)?;
    Some(Word::Compact { kind, region })
}

fn read_kind(word: &str) -> Option<CompactKind>
    ensures { result ≡ kind_word word.now }
{
    if word == "minor" {
        return Some(CompactKind::Minor);
    }
    if word == "major" {
        return Some(CompactKind::Major);
    }
    None
}

#[tactic(auto, using(std::proofs::lemmas::Bool::Decides::nat_tests))]
fn read_region(word: &str) -> Option<u32>
    ensures named { result ≡ region_word word.now }
    ensures right { IfSome result IsRegion }
{
    let region = number(word.as_bytes())?;
    if region < 1 || region > 64 {
        return None;
    }
    Some(region as u32)
}
