//! What the readers of an expression are told beside the place.
ghost use Rattle.std.specs.Prelude.{◌≤◌};
ghost use Rattle.expression.specs.Limits.{most_brackets};

use crate::limits::MOST_BRACKETS;
use crate::names::FieldName;

/// The field that the numbers are of, and how many brackets may still be opened.
#[derive(Clone, Copy)]
pub struct Scope {
    pub field: FieldName,
    pub left: u8,
    ghost few: { left ≤ most_brackets },
}

impl Scope {
    ghost use Rattle.std.specs.Prelude.{◌≡◌, ◌+◌, MatchOption};
    ghost use Rattle.expression.specs.Limits.{most_brackets};

    /// Outside every bracket.
    pub fn outside(field: FieldName) -> Scope
        ensures field { result.field ≡ field }
        ensures left { result.left ≡ most_brackets }
    {
        Scope {
            field,
            left: MOST_BRACKETS,
        }
    }

    /// Inside one bracket more, if one may still be opened.
    pub fn inside(self) -> Option<Scope>
        ensures { MatchOption result (self.left ≡ 0) (λ inside. (inside.field ≡ self.field) × (inside.left + 1 ≡ self.left)) }
    {
        let left = self.left.checked_sub(1)?;
        Some(Scope {
            field: self.field,
            left,
        })
    }
}
