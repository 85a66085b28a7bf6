//! Reading the words.

ghost use Rattle.std.specs.Prelude.{◌≡◌, ◌≢◌, map, IfOk, IsErrOf};
ghost use Rattle.clap.specs.Words.{kind_of};
ghost use Rattle.made_script.specs.Made.{AreOptions};
ghost use Rattle.load_words.specs.App.{IsTaken, AreSaid};
ghost use Rattle.load_words.specs.declared.words.WordsRefusal.TheVariants.{Memory};

use crate::command::load_command;
use crate::numbers::{count_of, handlers_of, regions_of, start_of};
use clap::Error;
use clap::error::ErrorKind;
use made_script::LoadOptions;
use std::alloc::{AllocError, Global};

/// Why the words were not read.
#[derive(Clone, Copy, Debug, PartialEq, Eq)]
pub enum WordsRefusal {
    Memory,
    /// They are none that the command takes.
    Usage,
}

impl From<AllocError> for WordsRefusal {
    ghost from_gives = { λ _ e. e ≡ Memory };

    fn from(_: AllocError) -> Self {
        WordsRefusal::Memory
    }
}

/// The options that the words give. The first word is the command's own name, whatever it is. What is taken is what `clap`'s
/// own reading of the command takes: each option once, in any order, as `--start 5` or `--start=5`.
pub fn read_load<'a>(alloc: Global, words: &'a [&'a str]) -> Result<LoadOptions, WordsRefusal>
    ensures taken { IfOk result (λ _. IsTaken (map (λ w. w.now) words.now)) }
    ensures said { IfOk result (λ options. AreSaid (map (λ w. w.now) words.now) options) }
    ensures right { IfOk result (λ options. AreOptions options) }
    ensures usage { IsErrOf result WordsRefusal.Usage → IsTaken (map (λ w. w.now) words.now) → ⊥ }
{
    let command = load_command(alloc)?;
    match command.try_get_matches_from(words) {
        Ok(matches) => Ok(LoadOptions {
            start: start_of(&matches),
            handlers: handlers_of(&matches),
            regions: regions_of(&matches),
            count: count_of(&matches),
        }),
        Err(error) => Err(refusal_of(error)),
    }
}

/// Being out of memory alone is no fault of the words.
fn refusal_of(error: Error) -> WordsRefusal
    ensures { (kind_of error ≡ ErrorKind.OutOfMemory → result ≡ WordsRefusal.Memory) × (result ≡ WordsRefusal.Memory → kind_of error ≡ ErrorKind.OutOfMemory) }
{
    if matches!(error.kind(), ErrorKind::OutOfMemory) {
        WordsRefusal::Memory
    } else {
        WordsRefusal::Usage
    }
}
