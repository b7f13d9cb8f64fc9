//! Words from a table, of which one has to stand at a place.
ghost use Rattle.std.specs.Prelude.{◌≡◌, ◌<◌, length};
ghost use Rattle.expression.specs.Cursors.{Here};
ghost use Rattle.sheet.specs.Tables.{WordTold, common};

use expression::{Cursor, Part, Stop};

/// A word as it stands on the sheet, with what it stands for.
#[derive(Clone, Copy)]
pub(crate) struct Named<'a, T> {
    pub(crate) word: Part<'a>,
    pub(crate) value: T,
}

// How many bytes two texts have in common from the front on.
fn common(text: &[u8], word: &[u8]) -> usize
    ensures { result ≡ common text.now word.now }
{
    text.iter()
        .zip(word)
        .take_while(|(stands, wanted)| stands == wanted)
        .count()
}

/// The word of the table that is written here, with what it stands for. It stops at the furthest place to
/// which one of them goes.
pub(crate) fn one_of<'a, T: Copy>(
    from: Cursor<'a>,
    table: &[(&[u8], T)],
) -> Result<Named<'a, T>, Stop>
    requires { 0 < length table.now }
    ensures { Here from.entry (λ s i. WordTold table.now s i result) }
{
    let mut furthest: usize = 0;
    for (letters, value) in table {
        let same = common(from.rest(), letters);
        if same == letters.len() {
            return Ok(Named {
                word: from.part(from.place + same),
                value: *value,
            });
        }
        furthest = furthest.max(same);
    }
    Err(Stop {
        place: from.place + furthest,
    })
}
