//! The signs that a sheet is written with.

/// A sign is one byte that belongs to no number and to no word.
#[derive(Clone, Copy)]
pub enum Sign {
    Plus,
    Times,
    Caret,
    LeftBracket,
    RightBracket,
    Blank,
    LineEnd,
}

impl Sign {
    ghost use Rattle.std.specs.Prelude.{◌≡◌};
    ghost use Rattle.expression.specs.Signs.{sign_byte};

    /// The byte that a sheet has for it.
    pub fn byte(self) -> u8
        ensures { result ≡ sign_byte self }
    {
        match self {
            Sign::Plus => b'+',
            Sign::Times => b'*',
            Sign::Caret => b'^',
            Sign::LeftBracket => b'(',
            Sign::RightBracket => b')',
            Sign::Blank => b' ',
            Sign::LineEnd => b'\n',
        }
    }
}
