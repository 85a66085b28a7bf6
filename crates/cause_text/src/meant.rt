//! Which command words are meant for.

/// The command that the first word names, whether or not the others are right.
#[derive(Clone, Copy, Debug, PartialEq, Eq)]
pub enum Meant {
    Log,
    Show,
    Dump,
    Ship,
    Recover,
    Compact,
    Run,
    Load,
    /// A run on several folders, which is a program of its own.
    Groups,
    /// The first word is no command's, or there is none.
    Unknown,
}

/// The command that these words of the program `hwal` are meant for.
pub fn meant_by(words: &[&str]) -> Meant {
    match words {
        [] => Meant::Unknown,
        [word, ..] => meant_by_word(word),
    }
}

fn meant_by_word(word: &str) -> Meant {
    if word == "log" {
        return Meant::Log;
    }
    if word == "show" {
        return Meant::Show;
    }
    if word == "dump" {
        return Meant::Dump;
    }
    if word == "ship" {
        return Meant::Ship;
    }
    if word == "recover" {
        return Meant::Recover;
    }
    if word == "compact" {
        return Meant::Compact;
    }
    if word == "run" {
        return Meant::Run;
    }
    if word == "load" {
        return Meant::Load;
    }
    if word == "groups" {
        return Meant::Groups;
    }
    Meant::Unknown
}
