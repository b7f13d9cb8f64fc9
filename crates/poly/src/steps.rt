//! Euclid's extended algorithm, step by step, on fixed buffers.
ghost use Rattle.std.specs.Prelude.{◌≡◌, ℕ, ◌≤◌, length};
ghost use Rattle.algebra.specs.Field.{Arithmetic, FieldLaws};
ghost use Rattle.algebra.specs.Moduli.{nought, one};
ghost use Rattle.algebra.specs.Polynomial.{Below, HasDegree, coefficients};
ghost use Rattle.poly.specs.Extended.{Holds, Running, Stepped, Steps};
ghost use Rattle.poly.specs.Slices.{Codes, Significant, capacity};

use crate::degrees::{count_of, significant};
use crate::divisions::divide;
use crate::divisors::{CAPACITY, loaded};
use crate::products::subtract_product;
use field::Field;

/// Two remainders that follow one another, and the factors of the second polynomial in them.
#[derive(Clone, Copy)]
pub struct Euclid {
    pub previous: [u16; CAPACITY],
    pub current: [u16; CAPACITY],
    pub t_previous: [u16; CAPACITY],
    pub t_current: [u16; CAPACITY],
}

impl Euclid {
    /// The start on `m` and `y`, with the factors 0 and 1.
    pub fn start(m: &[u16], y: &[u16]) -> Euclid
        requires m_fits { length m.now ≤ capacity }
        requires y_fits { length y.now ≤ capacity }
        ensures previous { coefficients result.previous ≡ coefficients m.now }
        ensures current { coefficients result.current ≡ coefficients y.now }
        ensures t_previous { coefficients result.t_previous ≡ nought }
        ensures t_current { coefficients result.t_current ≡ one }
        ensures extended { (f : Arithmetic) → FieldLaws f → Codes f m.now → Codes f y.now → (D : ℕ) → HasDegree D (coefficients m.now) → Below D (coefficients y.now) → Holds f D (coefficients m.now) (coefficients y.now) result }
    {
        Euclid {
            previous: loaded(m),
            current: loaded(y),
            t_previous: [0; CAPACITY],
            t_current: loaded(&[1]),
        }
    }

    /// One division: the remainder becomes the current one, and its factor `t_previous - quotient·t_current`.
    /// Answers how many codes of that remainder are significant.
    pub fn step<F: Field>(&mut self) -> usize
        requires { Running F.Field.arithmetic self.old }
        ensures stepped { Stepped F.Field.arithmetic self.old self.new }
        ensures extended { (e D : ℕ) (M Y : ℕ → ℕ) → HasDegree e (coefficients self.old.current) → Holds F.Field.arithmetic D M Y self.old → Holds F.Field.arithmetic D M Y self.new }
        ensures count { Significant (coefficients self.new.current) result }
    {
        let mut quotient = [0; CAPACITY];
        let (quotient_degree, rest) = divide::<F>(&mut self.previous, &self.current, &mut quotient);
        let quotient_count = count_of(quotient_degree);
        let factor_count = significant(&self.t_current);
        subtract_product::<F>(
            &mut self.t_previous,
            &quotient[..quotient_count],
            &self.t_current[..factor_count],
        );
        (self.previous, self.current) = (self.current, self.previous);
        (self.t_previous, self.t_current) = (self.t_current, self.t_previous);
        count_of(rest)
    }

    /// Steps until at most `most` codes of the current remainder are significant.
    pub fn descend<F: Field>(&mut self, most: usize)
        requires { Running F.Field.arithmetic self.old }
        ensures first { (n : ℕ) × Steps F.Field.arithmetic most n self.old self.new }
        ensures few { Below most (coefficients self.new.current) }
        ensures extended { (D : ℕ) (M Y : ℕ → ℕ) → Holds F.Field.arithmetic D M Y self.old → Holds F.Field.arithmetic D M Y self.new }
    {
        let mut count = significant(&self.current);
        while count > most {
            count = self.step::<F>();
        }
    }
}
