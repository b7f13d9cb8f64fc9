//! The fields that a sheet can name.
use std::fmt;

/// A field of the generator, by its name.
#[derive(Clone, Copy, PartialEq, Eq, Debug)]
pub enum FieldName {
    Bits,
    Bytes,
    Clock,
}

impl FieldName {
    ghost use Rattle.std.specs.Prelude.{◌≡◌};
    ghost use Rattle.expression.specs.Fields.{field_word};

    /// The name as a sheet writes it.
    pub fn word(self) -> &'static str
        ensures { result.now ≡ field_word self }
    {
        match self {
            FieldName::Bits => "bits",
            FieldName::Bytes => "bytes",
            FieldName::Clock => "clock",
        }
    }
}

impl fmt::Display for FieldName {
    ghost use Rattle.std.specs.Prelude.{Some};
    ghost use Rattle.expression.specs.Fields.{field_word};

    ghost output = { λ name. Some (field_word name) };

    fn fmt<W: fmt::Write>(&self, f: &mut fmt::Formatter<W>) -> fmt::Result {
        f.write_str(self.word())
    }
}
