//! Counts, each on a line of its own.
ghost use Rattle.std.specs.Prelude.{◌≡◌, ◌≤◌, length, slice_index, Decides};
ghost use Rattle.expression.specs.Cursors.{Here};
ghost use Rattle.expression.specs.Bytes.{first_digit};
ghost use Rattle.sheet.specs.Parts.{CountTold};

use crate::limits::{Counts, MOST_COUNT_DIGITS};
use crate::signs::expected_sign;
use expression::{Cursor, Parsed, Sign, Stop, digits_end, numeral_of};

// Whether a zero stands before other digits, which no count has.
fn zero_leads(digits: &[u8]) -> bool
    ensures { Decides result ((slice_index digits.now 0 ≡ first_digit) × (2 ≤ length digits.now)) }
{
    digits.len() > 1 && digits[0] == b'0'
}

/// The count on the line that begins here. Since `least` is 0 or 1 and `most` has at most two digits, a first
/// digit begins some count exactly if it is one itself.
pub(crate) fn count_line(from: Cursor, counts: Counts) -> Result<Parsed<usize>, Stop>
    ensures { Here from.entry (λ s i. CountTold counts.least counts.most s i result) }
{
    let number = from.part(digits_end::<MOST_COUNT_DIGITS>(from));
    let [first, ..] = number.text else {
        return Err(Stop { place: from.place });
    };
    let first = usize::from(*first - b'0');
    if first < counts.least || first > counts.most {
        return Err(Stop { place: from.place });
    }
    let count = usize::from(numeral_of(number.text));
    if zero_leads(number.text) || count > counts.most {
        return Err(Stop {
            place: from.place + 1,
        });
    }
    let sign = expected_sign(from.at(number.end()), Sign::LineEnd)?;
    Ok(Parsed {
        value: count,
        end: sign.end(),
    })
}
