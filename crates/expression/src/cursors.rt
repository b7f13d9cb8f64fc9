//! Places of a sheet. Readers take a place with its sheet; what they read ends at a bare place, so that a
//! contract need not say that the sheet is still the same.
ghost use Rattle.std.specs.Prelude.{◌≤◌, length};

use crate::parts::Part;

/// A place of a sheet, at most its end.
#[derive(Clone, Copy)]
pub struct Cursor<'a> {
    pub sheet: &'a [u8],
    pub place: usize,
    ghost within: { place ≤ length sheet.now },
}

impl<'a> Cursor<'a> {
    ghost use Rattle.std.specs.Prelude.{◌≡◌, ◌+◌, ◌≤◌, length, drop, MatchOption};
    ghost use Rattle.std.specs.List.{between};
    ghost use Rattle.expression.specs.Cursors.{Here};
    ghost use Rattle.expression.specs.Texts.{Stands};

    /// Another place of the same sheet.
    pub fn at(self, place: usize) -> Cursor<'a>
        requires { place ≤ length self.sheet.now }
        ensures sheet { result.sheet.now ≡ self.entry.sheet.now }
        ensures place { result.place ≡ place }
    {
        Cursor {
            sheet: self.sheet,
            place,
        }
    }

    /// The byte that stands here; none at the sheet's end.
    pub fn byte(self) -> Option<u8>
        ensures { Here self.entry (λ s i. MatchOption result (i ≡ length s) (λ byte. Stands byte s i)) }
    {
        self.sheet.get(self.place).copied()
    }

    /// The sheet from here on.
    pub fn rest(self) -> &'a [u8]
        ensures { result.now ≡ drop self.entry.place self.entry.sheet.now }
    {
        &self.sheet[self.place..]
    }

    /// What stands from here to another place.
    pub fn part(self, end: usize) -> Part<'a>
        requires more { self.place ≤ end }
        requires within { end ≤ length self.sheet.now }
        ensures place { result.place ≡ self.entry.place }
        ensures text { result.text.now ≡ between self.entry.place end self.entry.sheet.now }
        ensures ends { result.place + length result.text.now ≡ end }
    {
        Part {
            text: &self.sheet[self.place..end],
            place: self.place,
        }
    }
}
