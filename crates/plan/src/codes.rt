//! Where a list of numbers first leaves the codes of a field.
ghost use Rattle.std.specs.Prelude.{MatchOption};
ghost use Rattle.plan.specs.Refusals.{AreCodes, FirstNoCode};

use field::Field;

/// The place of the first number that is no code.
pub fn first_no_code<F: Field>(numbers: &[u16]) -> Option<usize>
    ensures { MatchOption result (AreCodes F.Field.arithmetic numbers.now) (λ i. FirstNoCode F.Field.arithmetic numbers.now i) }
{
    numbers.iter().position(|number| *number >= F::ORDER)
}
