//! The degree of a polynomial.
ghost use Rattle.std.specs.Prelude.{◌≡◌, ◌≤◌, ◌<◌, MatchOption, length};
ghost use Rattle.algebra.specs.Polynomial.{Below, DegreeIs, HasDegree, coefficients};
ghost use Rattle.poly.specs.Slices.{Significant, count_of, longest};

/// The place of the last code other than 0.
fn leading(p: &[u16]) -> Option<usize>
    ensures { MatchOption result (Below 0 (coefficients p.now)) (λ place. (place < length p.now) × HasDegree place (coefficients p.now)) }
{
    p.iter().rposition(|code| *code != 0)
}

/// How many codes there are up to the last one other than 0: one more than the degree, and 0 for zero.
pub fn significant(p: &[u16]) -> usize
    ensures within { result ≤ length p.now }
    ensures is { Significant (coefficients p.now) result }
{
    match leading(p) {
        Some(place) => place + 1,
        None => 0,
    }
}

/// The place of the last code other than 0; -1 where there is none.
pub fn degree(p: &[u16]) -> i32
    requires { length p.now ≤ longest }
    ensures { DegreeIs (coefficients p.now) result }
{
    match leading(p) {
        Some(place) => place as i32,
        None => -1,
    }
}

/// How many codes are significant of a polynomial of this degree.
pub(crate) fn count_of(degree: i32) -> usize
    ensures { result ≡ count_of degree }
{
    if degree < 0 { 0 } else { degree as usize + 1 }
}
