//! Division with remainder over two buffers.
ghost use Rattle.std.specs.Prelude.{◌-◌, ◌<◌, ◌≤◌, length};
ghost use Rattle.algebra.specs.Polynomial.{Below, DegreeIs, IsDivision, coefficients};
ghost use Rattle.poly.specs.Slices.{Codes, Divided, longest};

use crate::degrees::{degree, significant};
use crate::sums::add_scaled;
use field::Field;

/// Long division by a divisor that ends in its leading code, into a quotient of zeros: from the highest power
/// down, each code of the quotient clears one code of the remainder.
fn divide_long<F: Field>(remainder: &mut [u16], divisor: &[u16], quotient: &mut [u16])
    requires remainder_fits { length remainder.old ≤ length quotient.old }
    requires divisor_least { 1 ≤ length divisor.now }
    requires leading { 0 < coefficients divisor.now (length divisor.now - 1) }
    requires empty { Below 0 (coefficients quotient.old) }
    requires remainder_codes { Codes F.Field.arithmetic remainder.old }
    requires divisor_codes { Codes F.Field.arithmetic divisor.now }
    ensures { IsDivision F.Field.arithmetic (length divisor.now - 1) (coefficients remainder.old) (coefficients divisor.now) (coefficients quotient.new) (coefficients remainder.new) }
{
    let top = divisor.len() - 1;
    let inverse = F::inverse(divisor[top]);
    // A turn reads one buffer at one place, writes another at a second, and then changes the first.
    for shift in (0..remainder.len().saturating_sub(top)).rev() {
        let factor = F::product(remainder[top + shift], inverse);
        quotient[shift] = factor;
        add_scaled::<F>(remainder, F::negative(factor), shift, divisor);
    }
}

/// Divides what `remainder` holds: it holds the remainder afterwards, and `quotient` is written whole.
/// Answers the degrees of quotient and remainder, -1 for zero as everywhere. By zero the quotient is zero and
/// the dividend stays as the remainder.
pub fn divide<F: Field>(remainder: &mut [u16], divisor: &[u16], quotient: &mut [u16]) -> (i32, i32)
    requires remainder_fits { length remainder.old ≤ length quotient.old }
    requires divisor_short { length divisor.now ≤ longest }
    requires quotient_short { length quotient.old ≤ longest }
    requires remainder_codes { Codes F.Field.arithmetic remainder.old }
    requires divisor_codes { Codes F.Field.arithmetic divisor.now }
    ensures divided { Divided F.Field.arithmetic (coefficients remainder.old) (coefficients divisor.now) (coefficients quotient.new) (coefficients remainder.new) }
    ensures quotient_degree { DegreeIs (coefficients quotient.new) result.0 }
    ensures remainder_degree { DegreeIs (coefficients remainder.new) result.1 }
    ensures quotient_codes { Codes F.Field.arithmetic quotient.new }
    ensures remainder_codes { Codes F.Field.arithmetic remainder.new }
{
    quotient.fill(0);
    let count = significant(divisor);
    if count > 0 {
        divide_long::<F>(remainder, &divisor[..count], quotient);
    }
    (degree(quotient), degree(remainder))
}
