//! The names of the calls.
ghost use Rattle.expression.specs.Cursors.{Here};
ghost use Rattle.sheet.specs.CallNames.{NameTold};

use crate::words::{Named, one_of};
use expression::{Cursor, Stop};

/// The six calls by their names.
#[derive(Clone, Copy)]
pub(crate) enum CallName {
    Open,
    Put,
    Strike,
    Read,
    Measure,
    Close,
}

/// The name of each call.
const CALL_NAMES: [(&[u8], CallName); 6] = [
    (b"open", CallName::Open),
    (b"put", CallName::Put),
    (b"strike", CallName::Strike),
    (b"read", CallName::Read),
    (b"measure", CallName::Measure),
    (b"close", CallName::Close),
];

/// The call that is named here. No two names begin with the same letter, so it stops where no call goes on.
pub(crate) fn call_name<'a>(from: Cursor<'a>) -> Result<Named<'a, CallName>, Stop>
    ensures { Here from.entry (λ s i. NameTold s i result) }
{
    one_of(from, &CALL_NAMES)
}
