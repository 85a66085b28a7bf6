//! Laws of the texts. Each of these functions does nothing: its contract is the law.

ghost use Rattle.report_text.specs.Reading.{HasOneReading, IsReadAgain};

/// Two reports with one text are equal, where their numbers are below 2^64 and their cells within the limits.
pub fn one_reading()
    ensures { HasOneReading }
{}

/// What is printed of bytes is a token that stands for these bytes.
pub fn tokens_read_again()
    ensures { IsReadAgain }
{}
