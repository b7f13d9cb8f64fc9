//! Why a sheet is refused.
ghost use Rattle.std.specs.Prelude.{◌≡◌, Some};
ghost use Rattle.sheet.specs.Refusals.{sheet_ground};
ghost use Rattle.sheet.specs.Sentences.{sheet_sentence};
ghost use Rattle.sheet.specs.declared.faults.SheetFault.TheVariants.{NotASheet};

use crate::limits::LONGEST_SHEET;
use expression::Stop;
use fault::{Fault, Ground, Layer, ShortText};
use std::error::Error;
use std::fmt;

/// Why there is no sheet.
#[derive(Clone, Copy, PartialEq, Eq, Debug)]
pub enum SheetFault {
    /// It is longer than any sheet may be.
    TooLong,
    /// It is not of the grammar: the length of its longest beginning that also begins some sheet of the
    /// grammar, of any length.
    NotASheet(usize),
    /// The first line, counted from 0, whose modulus has no value.
    NoModulus(usize),
}

impl From<Stop> for SheetFault {
    ghost from_gives = { λ stop fault. fault ≡ NotASheet stop.place };

    fn from(stop: Stop) -> SheetFault {
        SheetFault::NotASheet(stop.place)
    }
}

impl Fault for SheetFault {
    ghost meaning = { sheet_ground };

    ghost saying = { sheet_sentence };

    fn ground(&self) -> Ground {
        let (number, first) = match self {
            SheetFault::TooLong => (1, 0),
            SheetFault::NotASheet(place) => (2, *place),
            SheetFault::NoModulus(line) => (3, *line),
        };
        Ground {
            number,
            layer: Layer::Sheet,
            first,
            second: 0,
        }
    }

    fn sentence(&self) -> ShortText {
        match self {
            SheetFault::TooLong => ShortText::new("the sheet is longer than ")
                .number(LONGEST_SHEET)
                .text(" bytes"),
            SheetFault::NotASheet(place) => {
                ShortText::new("the text is no sheet: no more than its first ")
                    .number(*place)
                    .text(" bytes begin one")
            }
            SheetFault::NoModulus(line) => ShortText::new("the modulus on line ")
                .number(*line)
                .text(", counted from 0, has no value"),
        }
    }
}

impl fmt::Display for SheetFault {
    ghost output = { λ fault. Some (sheet_sentence fault) };

    fn fmt<W: fmt::Write>(&self, f: &mut fmt::Formatter<W>) -> fmt::Result {
        f.write_str(self.sentence().as_str())
    }
}

impl Error for SheetFault {}
