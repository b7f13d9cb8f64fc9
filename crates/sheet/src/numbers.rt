//! The numbers of a call: each after exactly one blank, with one to four digits.
ghost use Rattle.std.specs.Prelude.{◌≤◌};
ghost use Rattle.expression.specs.Cursors.{Here};
ghost use Rattle.sheet.specs.CallNumbers.{CodesTold, DigitsTold, HeadingTold, NumberTold};
ghost use Rattle.sheet.specs.Rooms.{most_call_codes};

use crate::limits::MOST_CALL_DIGITS;
use crate::rooms::Row;
use crate::signs::expected_sign;
use expression::{Cursor, Parsed, Part, Sign, Stop, digits_end, numeral_of, sign_at};

/// The two numbers that every call begins with.
#[derive(Clone, Copy)]
pub(crate) struct Heading {
    pub(crate) channel: usize,
    pub(crate) slot: usize,
}

/// The digits after the blank here. One more than a number may have is left standing, where neither a blank
/// nor the end of the line can be.
fn digits<'a>(from: Cursor<'a>) -> Result<Part<'a>, Stop>
    ensures { Here from.entry (λ s i. DigitsTold s i result) }
{
    let blank = expected_sign(from, Sign::Blank)?;
    let first = from.at(blank.end());
    let place = first.place;
    let end = digits_end::<MOST_CALL_DIGITS>(first);
    if end == place {
        return Err(Stop { place });
    }
    Ok(first.part(end))
}

/// The number after the blank here.
pub(crate) fn number(from: Cursor) -> Result<Parsed<u16>, Stop>
    ensures { Here from.entry (λ s i. NumberTold s i result) }
{
    let digits = digits(from)?;
    Ok(Parsed {
        value: numeral_of(digits.text),
        end: digits.end(),
    })
}

/// Channel and slot.
pub(crate) fn channel_and_slot(from: Cursor) -> Result<Parsed<Heading>, Stop>
    ensures { Here from.entry (λ s i. HeadingTold s i result) }
{
    let channel = number(from)?;
    let slot = number(from.at(channel.end))?;
    Ok(Parsed {
        value: Heading {
            channel: usize::from(channel.value),
            slot: usize::from(slot.value),
        },
        end: slot.end,
    })
}

/// The numbers from here on, as many as there are and at most `most`. Where no blank stands the line may end,
/// so that is no fault here; after a blank a number has to come.
pub(crate) fn code_row(row: Row, from: Cursor, most: usize) -> Result<Parsed<Vec<u16>>, Stop>
    requires { most ≤ most_call_codes }
    ensures { Here from.entry (λ s i. CodesTold s i most result) }
{
    let Row { mut codes } = row;
    let mut end = from.place;
    // How many come shows only as they are read, so there is nothing to iterate over.
    while codes.len() < most && sign_at(from.at(end), Sign::Blank).is_some() {
        let code = number(from.at(end))?;
        codes.push_reserved(code.value);
        end = code.end;
    }
    Ok(Parsed { value: codes, end })
}
