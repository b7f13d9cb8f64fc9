//! How every refusal is shown: a number, the letter of the layer that refused, and two places.
#![tactic(auto)]

ghost use Rattle.std.specs.Prelude.{◌≡◌, ℕ, ◌≤◌, List, length, Some, encode_utf8};
ghost use Rattle.fault.specs.declared.Ground.{Ground};
ghost use Rattle.fault.specs.Shown.{letter_of, line, longest_line};
ghost use Rattle.fault.specs.Texts.{written};

mod short_text;

pub use short_text::ShortText;
use std::fmt;

/// The layer of the software that refused.
#[derive(Clone, Copy, PartialEq, Eq, Debug)]
pub enum Layer {
    Sheet,
    Plan,
    Memory,
    Rack,
    Reader,
}

impl Layer {
    /// The letter that stands for the layer in a printed refusal.
    pub fn letter(self) -> char
        ensures { result ≡ letter_of self }
    {
        match self {
            Layer::Sheet => 'S',
            Layer::Plan => 'P',
            Layer::Memory => 'M',
            Layer::Rack => 'R',
            Layer::Reader => 'D',
        }
    }
}

impl fmt::Display for Layer {
    ghost output = { λ layer. Some (encode_utf8 (letter_of layer)) };

    fn fmt<W: fmt::Write>(&self, f: &mut fmt::Formatter<W>) -> fmt::Result {
        f.write_char(self.letter())
    }
}

/// Why something was refused, as a user sees it: its number is only shown, and code tells refusals apart by
/// the enums of faults. A place that the ground does not name is 0, as it is shown.
#[derive(Clone, Copy, PartialEq, Eq, Debug)]
pub struct Ground {
    pub number: u8,
    pub layer: Layer,
    pub first: usize,
    pub second: usize,
}

/// No ground's line is longer: a number of one byte, and two places of eight.
pub const LONGEST_LINE: usize = 50;

impl Ground {
    /// The line that is printed for the ground, whole and without its end.
    pub fn line(&self) -> ShortText
        ensures whole { written result ≡ line self.now }
        ensures short { length (written result) ≤ longest_line }
    {
        ShortText::new("no ")
            .number(self.number as usize)
            .text(" ")
            .letter(self.layer.letter())
            .text(" ")
            .number(self.first)
            .text(" ")
            .number(self.second)
    }
}

impl fmt::Display for Ground {
    ghost output = { λ g. Some (line g) };

    fn fmt<W: fmt::Write>(&self, f: &mut fmt::Formatter<W>) -> fmt::Result {
        f.write_str(self.line().as_str())
    }
}

/// A fault of any layer: its ground and its sentence are functions of its case and of the values that the case holds.
pub trait Fault {
    ghost meaning: { Self → Ground };

    ghost saying: { Self → List ℕ };

    /// Number, layer and places.
    fn ground(&self) -> Ground
        ensures { result ≡ meaning self.now };

    /// Why it was refused, in a sentence without its full stop.
    fn sentence(&self) -> ShortText
        ensures { written result ≡ saying self.now };
}
