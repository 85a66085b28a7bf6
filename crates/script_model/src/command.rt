//! Whom a script is for.

/// `log` takes a part of the grammar, `run` all of it, and a run on several logs all but gets.
#[derive(Clone, Copy, Debug, PartialEq, Eq)]
pub enum Command {
    Log,
    Run,
    Groups,
}
