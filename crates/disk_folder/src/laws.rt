//! A law of names. The function does nothing: its contract is the law.

ghost use Rattle.disk_folder.specs.Spelling.{IsOneName};

/// Two names with one spelling are one name.
pub fn one_name()
    ensures { IsOneName }
{}
