//! Sums and differences in place.
ghost use Rattle.std.specs.Prelude.{◌≡◌, ◌+◌, ◌<◌, ◌≤◌, length};
ghost use Rattle.algebra.specs.Moduli.{monomial};
ghost use Rattle.algebra.specs.Polynomial.{add, coefficients, multiply, subtract};
ghost use Rattle.poly.specs.Slices.{Codes};

use field::Field;

/// `p + factor·z^shift·r`, in the place of `p`. A factor of 0 costs nothing, so a division costs as many
/// operations as its quotient and divisor have codes, however long the buffers are.
pub fn add_scaled<F: Field>(p: &mut [u16], factor: u16, shift: usize, r: &[u16])
    requires fits { shift + length r.now ≤ length p.old }
    requires factor_code { factor < F.Field.arithmetic.order }
    requires p_codes { Codes F.Field.arithmetic p.old }
    requires r_codes { Codes F.Field.arithmetic r.now }
    ensures value { coefficients p.new ≡ add F.Field.arithmetic (coefficients p.old) (multiply F.Field.arithmetic (monomial factor shift) (coefficients r.now)) }
    ensures codes { Codes F.Field.arithmetic p.new }
{
    if factor == 0 {
        return;
    }
    for (i, code) in r.iter().enumerate() {
        p[shift + i] = F::sum(p[shift + i], F::product(factor, *code));
    }
}

/// `p + r`, in the place of `p`.
pub fn add_to<F: Field>(p: &mut [u16], r: &[u16])
    requires fits { length r.now ≤ length p.old }
    requires p_codes { Codes F.Field.arithmetic p.old }
    requires r_codes { Codes F.Field.arithmetic r.now }
    ensures value { coefficients p.new ≡ add F.Field.arithmetic (coefficients p.old) (coefficients r.now) }
    ensures codes { Codes F.Field.arithmetic p.new }
{
    add_scaled::<F>(p, 1, 0, r);
}

/// `p - r`, in the place of `p`.
pub fn subtract_from<F: Field>(p: &mut [u16], r: &[u16])
    requires fits { length r.now ≤ length p.old }
    requires p_codes { Codes F.Field.arithmetic p.old }
    requires r_codes { Codes F.Field.arithmetic r.now }
    ensures value { coefficients p.new ≡ subtract F.Field.arithmetic (coefficients p.old) (coefficients r.now) }
    ensures codes { Codes F.Field.arithmetic p.new }
{
    add_scaled::<F>(p, F::negative(1), 0, r);
}
