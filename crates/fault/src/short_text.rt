//! A line of text that lies in the value itself, so that it is whole before any of it is handed to an output.
ghost use Rattle.std.specs.Prelude.{◌≡◌, ◌+◌, ◌≤◌, ◌++◌, [], length, decimal, encode_utf8, Some};
ghost use Rattle.std.specs.Fmt.{signed_decimal};
ghost use Rattle.fault.specs.Texts.{Appended, most_bytes, written};

use arrayvec::ArrayString;
use itoa::Buffer;
use std::fmt;

/// So many bytes fit into a short text.
const MOST_BYTES: usize = 256;

/// Text of at most 256 bytes. What is appended is appended whole, or where it does not fit, not at all.
#[derive(Clone, Copy)]
pub struct ShortText {
    text: ArrayString<MOST_BYTES>,
}

impl ShortText {
    /// These words alone.
    pub fn new(words: &str) -> Self
        ensures told { Appended [] words.now (written result) }
        ensures longest { length (written result) ≤ length words.now }
    {
        let empty = ShortText {
            text: ArrayString::new(),
        };
        empty.text(words)
    }

    /// Appends words.
    pub fn text(self, words: &str) -> Self
        ensures told { Appended (written self) words.now (written result) }
        ensures longest { length (written result) ≤ length (written self) + length words.now }
    {
        let mut text = self.text;
        match text.try_push_str(words) {
            Ok(()) => ShortText { text },
            Err(_) => self,
        }
    }

    /// Appends the digits of a number, at most 20.
    pub fn number(self, number: usize) -> Self
        ensures told { Appended (written self) (decimal number) (written result) }
        ensures room { length (written self) + 20 ≤ most_bytes → written result ≡ written self ++ decimal number }
        ensures longest { length (written result) ≤ length (written self) + 20 }
    {
        self.text(Buffer::new().format(number))
    }

    /// Appends the digits of a number, at most 10, after a minus sign where it is below 0.
    pub fn signed(self, number: i32) -> Self
        ensures told { Appended (written self) (signed_decimal number) (written result) }
        ensures room { length (written self) + 11 ≤ most_bytes → written result ≡ written self ++ signed_decimal number }
        ensures longest { length (written result) ≤ length (written self) + 11 }
    {
        self.text(Buffer::new().format(number))
    }

    /// Appends a letter, which takes at most 4 bytes.
    pub fn letter(self, letter: char) -> Self
        ensures told { Appended (written self) (encode_utf8 letter) (written result) }
        ensures room { length (written self) + 4 ≤ most_bytes → written result ≡ written self ++ encode_utf8 letter }
        ensures longest { length (written result) ≤ length (written self) + 4 }
    {
        self.text(letter.encode_utf8(&mut [0; 4]))
    }

    pub fn as_str(&self) -> &str
        ensures value { result.now ≡ written self.now }
        ensures short { length result.now ≤ most_bytes }
    {
        self.text.as_str()
    }

    pub fn as_bytes(&self) -> &[u8]
        ensures value { result.now ≡ written self.now }
        ensures short { length result.now ≤ most_bytes }
    {
        self.as_str().as_bytes()
    }
}

impl fmt::Display for ShortText {
    ghost output = { λ text. Some (written text) };

    fn fmt<W: fmt::Write>(&self, f: &mut fmt::Formatter<W>) -> fmt::Result {
        f.write_str(self.as_str())
    }
}
