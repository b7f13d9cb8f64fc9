//! Signs that have to stand at a place.
ghost use Rattle.expression.specs.Cursors.{Here};
ghost use Rattle.sheet.specs.Parts.{SignTold};

use expression::{Cursor, Part, Sign, Stop, sign_at};

/// The part of this sign, which has to stand here.
pub(crate) fn expected_sign<'a>(from: Cursor<'a>, sign: Sign) -> Result<Part<'a>, Stop>
    ensures { Here from.entry (λ s i. SignTold sign s i result) }
{
    sign_at(from, sign).ok_or(Stop { place: from.place })
}
