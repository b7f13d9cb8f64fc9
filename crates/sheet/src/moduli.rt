//! Moduli as they are read.
ghost use Rattle.std.specs.Prelude.{◌+◌, ◌≤◌, vec_capacity, vec_len};
ghost use Rattle.plan.specs.Limits.{modulus_codes};
ghost use Rattle.sheet.specs.Sections.{Keeps};

use plan::MODULUS_CODES;

/// The codes of the moduli read so far, and the first line whose modulus has no value. Reading goes on after
/// such a line: what is wrong with the grammar further down is told first.
#[derive(Drop)]
pub(crate) struct Moduli {
    pub(crate) codes: Vec<u16>,
    pub(crate) bad: Option<usize>,
}

impl Moduli {
    /// Notes the value on a line.
    pub(crate) fn keep(&mut self, line: usize, value: Option<[u16; MODULUS_CODES]>)
        requires { vec_len self.old.codes + modulus_codes ≤ vec_capacity self.old.codes }
        ensures { Keeps line value self.old self.new }
    {
        match value {
            Some(codes) => self.codes.extend_from_slice(&codes).unwrap(),
            None => self.bad = self.bad.or(Some(line)),
        }
    }
}
