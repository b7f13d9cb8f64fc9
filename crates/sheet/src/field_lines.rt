//! The name of the field, on a line of its own.
ghost use Rattle.expression.specs.Cursors.{Here};
ghost use Rattle.sheet.specs.Parts.{FieldLineTold, FieldNameTold};

use crate::signs::expected_sign;
use crate::words::{Named, one_of};
use expression::{Cursor, FieldName, Parsed, Sign, Stop};

/// The name of each field.
const FIELD_NAMES: [(&[u8], FieldName); 3] = [
    (b"bits", FieldName::Bits),
    (b"bytes", FieldName::Bytes),
    (b"clock", FieldName::Clock),
];

/// The field that is named here. No name begins another, so it stops where no line goes on.
fn field_name<'a>(from: Cursor<'a>) -> Result<Named<'a, FieldName>, Stop>
    ensures { Here from.entry (λ s i. FieldNameTold s i result) }
{
    one_of(from, &FIELD_NAMES)
}

/// The field that the line here names.
pub(crate) fn field_line(from: Cursor) -> Result<Parsed<FieldName>, Stop>
    ensures { Here from.entry (λ s i. FieldLineTold s i result) }
{
    let name = field_name(from)?;
    let sign = expected_sign(from.at(name.word.end()), Sign::LineEnd)?;
    Ok(Parsed {
        value: name.value,
        end: sign.end(),
    })
}
