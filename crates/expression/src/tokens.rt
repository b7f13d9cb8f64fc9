//! The tokens of an expression: each number, word and sign is the part of the sheet that it was read from,
//! with its byte place.
ghost use Rattle.std.specs.Prelude.{◌≡◌, ◌+◌, ◌<◌, ◌≤◌, ◌^◌, length};
ghost use Rattle.std.specs.List.{AllByRecursion};
ghost use Rattle.expression.specs.Cursors.{Here};
ghost use Rattle.expression.specs.Bytes.{Digit};
ghost use Rattle.expression.specs.Grammar.{numeral};
ghost use Rattle.expression.specs.Limits.{short_number};
ghost use Rattle.expression.specs.Readings.{DigitsTo};
ghost use Rattle.expression.specs.Tokens.{SignTold, TokenAt};

use crate::cursors::Cursor;
use crate::limits::MOST_DIGITS;
use crate::parts::Part;
use crate::signs::Sign;

/// A number, a word or a sign, as it stands on the sheet; or the sheet's end.
#[derive(Clone, Copy)]
pub enum Token<'a> {
    Number(Part<'a>),
    Word(Part<'a>),
    Sign(Part<'a>),
    End(usize),
}

/// Where the digits that stand here end, of which there may be `MOST`. One digit more is left for what comes
/// after them.
pub fn digits_end<const MOST: usize>(from: Cursor) -> usize
    ensures { Here from.entry (λ s i. DigitsTo MOST s i result) }
{
    let few = from.rest().iter().take(MOST);
    from.place + few.take_while(|byte| byte.is_ascii_digit()).count()
}

/// The token at a place. A sign is any one byte that begins no number and is no z: its reader says whether it
/// may stand there.
pub fn token_at<'a>(from: Cursor<'a>) -> Token<'a>
    ensures { Here from.entry (λ s i. TokenAt s i result) }
{
    let Some(first) = from.byte() else {
        return Token::End(from.place);
    };
    let end = digits_end::<MOST_DIGITS>(from);
    if from.place < end {
        Token::Number(from.part(end))
    } else if first == b'z' {
        Token::Word(from.part(from.place + 1))
    } else {
        Token::Sign(from.part(from.place + 1))
    }
}

/// The part of this sign, if it stands at a place.
pub fn sign_at<'a>(from: Cursor<'a>, sign: Sign) -> Option<Part<'a>>
    ensures { Here from.entry (λ s i. SignTold sign s i result) }
{
    match token_at(from) {
        Token::Sign(part) if part.text[0] == sign.byte() => Some(part),
        _ => None,
    }
}

/// The number that digits write, of which there are so few that it fits.
pub fn numeral_of(digits: &[u8]) -> u16
    requires few { length digits.now ≤ short_number }
    requires digits { AllByRecursion Digit digits.now }
    ensures { result ≡ numeral 0 digits.now }
{
    // No `fold`: its closure cannot tell how many digits came before, and so not that the next number fits.
    let mut number = 0;
    for digit in digits {
        number = 10 * number + u16::from(*digit - b'0');
    }
    number
}
