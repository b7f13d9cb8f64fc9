//! What a reader answers.
ghost use Rattle.std.specs.Prelude.{◌≡◌, ◌≤◌, length, take, Some};
ghost use Rattle.plan.specs.Held.{scheme};
ghost use Rattle.plan.specs.Schemes.{message_length};

use fault::{Fault, Ground, Layer, ShortText};
use field::Field;
use plan::{MOST_TOTAL, Plan};
use std::error::Error;
use std::fmt;

/// The codes that a message may have, so the codes of a message's table.
pub const MESSAGE_TABLE: usize = MOST_TOTAL;

/// The message within the allowance, its margin, and e, the degrees of the present positions whose residue
/// differs from the message's. The message stands in a table with zeros after its codes, since nothing is
/// allocated.
#[derive(Clone, Copy, PartialEq, Eq, Debug)]
pub struct Reading {
    pub(crate) message: [u16; MESSAGE_TABLE],
    pub(crate) count: usize,
    pub margin: i32,
    pub wrong: usize,
    ghost fits: { count ≤ length message },
}

/// The message in a table: its first K codes.
pub(crate) fn message_in<'a, F: Field>(plan: &Plan<F>, table: &'a [u16; MESSAGE_TABLE]) -> &'a [u16]
    ensures { result.now ≡ take (message_length (scheme plan.now)) table.now }
{
    &table[0..plan.message_length()]
}

impl Reading {
    ghost use Rattle.reader.specs.Answers.{message_of};

    /// The codes of the message, K of them.
    pub fn codes(&self) -> &[u16]
        ensures { result.now ≡ message_of self.now }
    {
        &self.message[0..self.count]
    }
}

/// Why there is no reading.
#[derive(Clone, Copy, PartialEq, Eq, Debug)]
pub enum ReaderFault {
    /// The degrees of the missing positions pass N − K by this much.
    TooMuchMissing(usize),
    /// No message lies within the allowance.
    NoMessage,
}

impl Fault for ReaderFault {
    ghost use Rattle.fault.specs.Texts.{written};
    ghost use Rattle.reader.specs.Answers.{reader_ground};
    ghost use Rattle.reader.specs.Sentences.{longest_sentence, reader_sentence};

    ghost meaning = { reader_ground };

    ghost saying = { reader_sentence };

    fn ground(&self) -> Ground {
        let (number, second) = match self {
            ReaderFault::TooMuchMissing(excess) => (18, *excess),
            ReaderFault::NoMessage => (19, 0),
        };
        Ground {
            number,
            layer: Layer::Reader,
            first: 0,
            second,
        }
    }

    fn sentence(&self) -> ShortText
        ensures told { written result ≡ reader_sentence self.now }
        ensures short { length (written result) ≤ longest_sentence }
    {
        match self {
            ReaderFault::TooMuchMissing(excess) => {
                ShortText::new("the degrees of the missing positions pass N - K by ").number(
                    *excess,
                )
            }
            ReaderFault::NoMessage => {
                ShortText::new("no message lies within the allowance of what has arrived")
            }
        }
    }
}

impl fmt::Display for ReaderFault {
    ghost use Rattle.reader.specs.Sentences.{reader_sentence};

    ghost output = { λ fault. Some (reader_sentence fault) };

    fn fmt<W: fmt::Write>(&self, f: &mut fmt::Formatter<W>) -> fmt::Result {
        f.write_str(self.sentence().as_str())
    }
}

impl Error for ReaderFault {}
