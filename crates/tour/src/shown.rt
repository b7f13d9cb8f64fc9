//! How a word is shown.
use field::Bits;
use plan::Plan;
use std::fmt;

/// A word of a plan, shown with a bar between positions.
#[derive(Clone, Copy)]
pub(crate) struct Word<'a> {
    pub(crate) plan: &'a Plan<Bits>,
    pub(crate) codes: &'a [u16],
}

impl<'a> Word<'a> {
    /// Whether a position other than the first starts at this code.
    fn begins_position(&self, place: usize) -> bool {
        (1..self.plan.positions()).any(|i| self.plan.start(i) == place)
    }
}

impl<'a> fmt::Display for Word<'a> {
    fn fmt<W: fmt::Write>(&self, f: &mut fmt::Formatter<W>) -> fmt::Result {
        for (place, code) in self.codes.iter().enumerate() {
            if self.begins_position(place) {
                f.write_str("|")?;
            } else if place > 0 {
                f.write_str(" ")?;
            }
            write!(f, "{code}")?;
        }
        Ok(())
    }
}
