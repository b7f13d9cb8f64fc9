//! The readers of a sum, a term and a factor. They call each other, and the number of brackets that may still
//! be opened falls. A value that passes a limit becomes none and reading goes on, so that a fault of writing
//! later in the line is found.
ghost use Rattle.expression.specs.Bytes.{letter_z};
ghost use Rattle.expression.specs.Grammar.{factor as Factor, sum as Sum, term as Term};
ghost use Rattle.expression.specs.Readings.{Reads};
ghost use Rattle.expression.specs.Tokens.{ByteAt};
ghost use Rattle.expression.specs.declared.scopes.Scope.{Scope};

use crate::cursors::Cursor;
use crate::parsed::{Parsed, Stop};
use crate::parts::Part;
use crate::scopes::Scope;
use crate::signs::Sign;
use crate::tokens::{Token, numeral_of, sign_at, token_at};
use crate::values::{Number, ProductOf, SumOf, Value, power_value, worth};

/// A sum: terms joined by `+`, up to a byte that is none.
#[cycle(factor_sum_term)]
pub fn sum(from: Cursor, scope: Scope) -> Result<Parsed<Value>, Stop>
    ensures { Reads Sum scope from.entry result }
{
    let mut whole = term(from, scope)?;
    // No `for`: how many terms come is known only once they are read.
    while let Some(sign) = sign_at(from.at(whole.end), Sign::Plus) {
        let next = term(from.at(sign.end()), scope)?;
        whole = Parsed {
            value: worth(scope.field, SumOf(whole.value, next.value)),
            end: next.end,
        };
    }
    Ok(whole)
}

/// A term: factors joined by `*`.
#[cycle(factor_sum_term)]
fn term(from: Cursor, scope: Scope) -> Result<Parsed<Value>, Stop>
    ensures { Reads Term scope from.entry result }
{
    let mut whole = factor(from, scope)?;
    // Nor here, for the same reason.
    while let Some(sign) = sign_at(from.at(whole.end), Sign::Times) {
        let next = factor(from.at(sign.end()), scope)?;
        whole = Parsed {
            value: worth(scope.field, ProductOf(whole.value, next.value)),
            end: next.end,
        };
    }
    Ok(whole)
}

/// A factor: a number, a power of z, or a sum in brackets.
#[cycle(factor_sum_term)]
fn factor(from: Cursor, scope: Scope) -> Result<Parsed<Value>, Stop>
    ensures { Reads Factor scope from.entry result }
{
    match token_at(from) {
        Token::Number(part) => Ok(Parsed {
            value: worth(scope.field, Number(numeral_of(part.text))),
            end: part.end(),
        }),
        Token::Word(letter) => power(from, letter),
        Token::Sign(part) if part.text[0] == Sign::LeftBracket.byte() => {
            let Some(inside) = scope.inside() else {
                return Err(Stop { place: from.place });
            };
            let inner = sum(from.at(part.end()), inside)?;
            let Some(closing) = sign_at(from.at(inner.end), Sign::RightBracket) else {
                return Err(Stop { place: inner.end });
            };
            Ok(Parsed {
                value: inner.value,
                end: closing.end(),
            })
        }
        _ => Err(Stop { place: from.place }),
    }
}

// A power of z, which stands here: `z` alone, or `z^` and a number. It is worth the same over every field.
fn power(from: Cursor, letter: Part) -> Result<Parsed<Value>, Stop>
    requires { ByteAt letter_z from.sheet.now from.place letter }
    ensures { (scope : Scope) → Reads Factor scope from.entry result }
{
    let Some(raised) = sign_at(from.at(letter.end()), Sign::Caret) else {
        return Ok(Parsed {
            value: power_value(1),
            end: letter.end(),
        });
    };
    let exponent = from.at(raised.end());
    match token_at(exponent) {
        Token::Number(part) => Ok(Parsed {
            value: power_value(numeral_of(part.text)),
            end: part.end(),
        }),
        _ => Err(Stop {
            place: exponent.place,
        }),
    }
}
