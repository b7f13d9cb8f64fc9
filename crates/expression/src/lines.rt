//! A line that holds a modulus.
ghost use Rattle.std.specs.Prelude.{◌≡◌, ◌<◌, ◌≤◌, length, Err, MatchResult};
ghost use Rattle.expression.specs.Fields.{arithmetic_of};
ghost use Rattle.expression.specs.Cursors.{Here};
ghost use Rattle.expression.specs.Lines.{AnyLine, LineRead};
ghost use Rattle.expression.specs.Texts.{Lost};

use crate::cursors::Cursor;
use crate::names::FieldName;
use crate::parsed::{Parsed, Stop};
use crate::readers::sum;
use crate::scopes::Scope;
use crate::signs::Sign;
use crate::tokens::sign_at;
use crate::values::Value;

/// Reads the line that begins at `from`: a sum and the end of the line. What is read are the codes of its
/// modulus, lowest power first, or none where a number is no code of the field or a value of degree above
/// eight is formed, even midway. It stops at the first byte with which what stands from `from` on begins no
/// such line, or at the sheet's end where the sheet ends too early.
pub fn modulus_line_at(from: Cursor, field: FieldName) -> Result<Parsed<Value>, Stop>
    ensures { Here from.entry (λ s i. MatchResult result (λ line. LineRead (arithmetic_of field) s i line.end line.value) (λ stop. Lost AnyLine s i stop.place)) }
{
    let whole = sum(from, Scope::outside(field))?;
    let Some(sign) = sign_at(from.at(whole.end), Sign::LineEnd) else {
        return Err(Stop { place: whole.end });
    };
    Ok(Parsed {
        value: whole.value,
        end: sign.end(),
    })
}

/// The same at a place that may be past the sheet's end, where it stops at that end.
pub fn modulus_line(sheet: &[u8], from: usize, field: FieldName) -> Result<Parsed<Value>, Stop>
    ensures within { from ≤ length sheet.now → MatchResult result (λ line. LineRead (arithmetic_of field) sheet.now from line.end line.value) (λ stop. Lost AnyLine sheet.now from stop.place) }
    ensures past { length sheet.now < from → result ≡ Err (record { place = length sheet.now }) }
{
    if from > sheet.len() {
        return Err(Stop { place: sheet.len() });
    }
    modulus_line_at(Cursor { sheet, place: from }, field)
}
