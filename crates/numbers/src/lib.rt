//! Numbers in a row, as programs print the codes of messages and words.
#![tactic(auto)]

ghost use Rattle.std.specs.Prelude.{◌≡◌, ◌+◌, ◌*◌, ◌<◌, ◌≤◌, ◌++◌, length, take, if◌then◌else◌, is_ok, OnErr, OnOk, Some, vec_len, vec_capacity};
ghost use Rattle.numbers.specs.Rows.{longest_number, row_text};

use itoa::Buffer;
use std::alloc::AllocError;
use std::fmt;

/// Numbers in a row, each printed after a blank.
#[derive(Clone, Copy)]
pub struct Numbers<'a>(pub &'a [u16]);

/// A number takes at most this many bytes of a row: its blank, and five digits.
pub const LONGEST_NUMBER: usize = 6;

impl Numbers<'_> {
    /// Appends the row to a text, or where there is no room for all of it, nothing. Within the capacity
    /// nothing is allocated.
    pub fn append_to(&self, text: &mut Vec<u8>) -> Result<(), AllocError>
        ensures items { text.new.items ≡ (if is_ok result then text.old.items ++ row_text self.now.0.now else text.old.items) }
        ensures capacity { vec_capacity text.old ≤ vec_capacity text.new }
        ensures full { OnErr result (vec_capacity text.old < vec_len text.old + length (row_text self.now.0.now)) }
        ensures short { length (row_text self.now.0.now) ≤ length self.now.0.now * longest_number }
    {
        let start = text.len();
        let appended = append_each(text, self.0);
        if appended.is_err() {
            text.truncate(start);
        }
        appended
    }
}

// Appends the numbers one after the other, as many as there is room for.
fn append_each(text: &mut Vec<u8>, numbers: &[u16]) -> Result<(), AllocError>
    ensures whole { OnOk result (text.new.items ≡ text.old.items ++ row_text numbers.now) }
    ensures begun { take (vec_len text.old) text.new.items ≡ text.old.items }
    ensures capacity { vec_capacity text.old ≤ vec_capacity text.new }
    ensures full { OnErr result (vec_capacity text.old < vec_len text.old + length (row_text numbers.now)) }
    ensures short { length (row_text numbers.now) ≤ length numbers.now * longest_number }
{
    for number in numbers {
        text.push(b' ')?;
        text.extend_from_slice(Buffer::new().format(*number).as_bytes())?;
    }
    Ok(())
}

impl fmt::Display for Numbers<'_> {
    ghost output = { λ row. Some (row_text row.0.now) };

    fn fmt<W: fmt::Write>(&self, f: &mut fmt::Formatter<W>) -> fmt::Result {
        for number in self.0 {
            f.write_str(" ")?;
            f.write_str(Buffer::new().format(*number))?;
        }
        Ok(())
    }
}
