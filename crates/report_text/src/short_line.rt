//! A line of at most 160 bytes, which needs no memory of its own.

ghost use Rattle.std.specs.Prelude.{◌≡◌, ◌+◌, ◌≤◌, [], ◌∷◌, ◌++◌, decimal, length};

use arrayvec::ArrayString;
use itoa::Buffer;
use std::marker::Model;

#[derive(Drop)]
pub struct Line {
    text: ArrayString<160>,
}

impl Model for Line {
    ghost use Rattle.std.specs.Prelude.{List, ℕ};

    ghost Value = { List ℕ };

    ghost view = { λ l. l.text.bytes };
}

impl Line {
    pub(crate) fn new() -> Line
        ensures { result ≡ [] }
    {
        Line {
            text: ArrayString::new(),
        }
    }

    pub(crate) fn push(&mut self, text: &str)
        requires { length self.old + length text.now ≤ 160 }
        ensures text { self.new ≡ self.old ++ text.now }
        ensures len { length self.new ≡ length self.old + length text.now }
    {
        self.text.push_str(text)
    }

    pub(crate) fn push_number(&mut self, n: u64)
        requires { length self.old + 20 ≤ 160 }
        ensures text { self.new ≡ self.old ++ decimal n }
        ensures len { length self.new ≤ length self.old + 20 }
    {
        self.push(Buffer::new().format(n))
    }

    /// Adds some words and a number.
    pub(crate) fn push_numbered(&mut self, words: &str, n: u64)
        requires { length self.old + length words.now + 20 ≤ 160 }
        ensures text { self.new ≡ self.old ++ (words.now ++ decimal n) }
        ensures len { length self.new ≤ length self.old + length words.now + 20 }
    {
        self.push(words);
        self.push_number(n)
    }

    /// Adds some words and two numbers with a space between them.
    pub(crate) fn push_two(&mut self, words: &str, n: u64, m: u64)
        requires { length self.old + length words.now + 41 ≤ 160 }
        ensures text { self.new ≡ self.old ++ (words.now ++ (decimal n ++ (32 ∷ decimal m))) }
        ensures len { length self.new ≤ length self.old + length words.now + 41 }
    {
        self.push_numbered(words, n);
        self.push_numbered(" ", m)
    }

    pub fn as_slice(&self) -> &[u8]
        ensures text { result.now ≡ self.now }
        ensures len { length result.now ≤ 160 }
    {
        self.text.as_str().as_bytes()
    }
}
