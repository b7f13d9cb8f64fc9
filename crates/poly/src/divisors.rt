//! Euclid's algorithm: greatest common divisors, and whether two polynomials share a factor.
ghost use Rattle.std.specs.Prelude.{◌≡◌, ◌≤◌, length, MatchBool};
ghost use Rattle.algebra.specs.Polynomial.{DegreeIs, ShareFactor, coefficients};
ghost use Rattle.poly.specs.Slices.{Codes, IsGcd, capacity};

use crate::degrees::{count_of, degree, significant};
use crate::divisions::divide;
use field::Field;

/// How many codes a working buffer holds: enough for degree 64.
pub const CAPACITY: usize = 65;

/// `p` in a buffer of its own.
pub(crate) fn loaded(p: &[u16]) -> [u16; CAPACITY]
    requires { length p.now ≤ capacity }
    ensures { coefficients result ≡ coefficients p.now }
{
    let mut buffer = [0; CAPACITY];
    buffer[..p.len()].copy_from_slice(p);
    buffer
}

/// Leaves a greatest common divisor of `m` and `n` in `divisor`, which has `CAPACITY` codes, and answers its degree; -1
/// where both are zero.
pub fn gcd<F: Field>(m: &[u16], n: &[u16], divisor: &mut [u16]) -> i32
    requires m_fits { length m.now ≤ capacity }
    requires n_fits { length n.now ≤ capacity }
    requires divisor_fits { length divisor.old ≡ capacity }
    requires m_codes { Codes F.Field.arithmetic m.now }
    requires n_codes { Codes F.Field.arithmetic n.now }
    ensures greatest { IsGcd F.Field.arithmetic (coefficients m.now) (coefficients n.now) (coefficients divisor.new) }
    ensures has_degree { DegreeIs (coefficients divisor.new) result }
    ensures codes { Codes F.Field.arithmetic divisor.new }
{
    let mut previous = loaded(m);
    let mut current = loaded(n);
    let mut quotient = [0; CAPACITY];
    // Not by `Euclid`: its factors would cost a product each turn, and it asks that `n` be of lower degree than `m`.
    let mut count = significant(&current);
    while count > 0 {
        let (_, rest) = divide::<F>(&mut previous, &current, &mut quotient);
        (previous, current) = (current, previous);
        count = count_of(rest);
    }
    divisor.copy_from_slice(&previous);
    degree(divisor)
}

/// Whether `m` and `n` share no factor.
pub fn coprime<F: Field>(m: &[u16], n: &[u16]) -> bool
    requires m_fits { length m.now ≤ capacity }
    requires n_fits { length n.now ≤ capacity }
    requires m_codes { Codes F.Field.arithmetic m.now }
    requires n_codes { Codes F.Field.arithmetic n.now }
    ensures { MatchBool result (ShareFactor F.Field.arithmetic (coefficients m.now) (coefficients n.now) → ⊥) (ShareFactor F.Field.arithmetic (coefficients m.now) (coefficients n.now)) }
{
    let mut divisor = [0; CAPACITY];
    gcd::<F>(m, n, &mut divisor) == 0
}
