//! A modulus with the residue that is to be left by it, and arithmetic modulo it. What is computed comes in
//! tables of CAPACITY codes, for nothing is allocated.
ghost use Rattle.std.specs.Prelude.{◌≤◌, length};
ghost use Rattle.algebra.specs.Moduli.{Congruent, Coprime, one};
ghost use Rattle.algebra.specs.Polynomial.{Below, coefficients, multiply};
ghost use Rattle.algebra.specs.Remainder.{IsRemainder};
ghost use Rattle.poly.specs.Slices.{Codes, capacity};
ghost use Rattle.reader.specs.States.{IsPair};

use field::Field;
use poly::{CAPACITY, Euclid, add_scaled, reduce};
use std::marker::PhantomData;

/// A modulus whose leading code is 1 and stands last, and a residue of as many codes as its degree, which is 1 or more.
#[derive(Drop)]
pub(crate) struct Congruence<'a, F: Field> {
    pub(crate) field: PhantomData<F>,
    pub(crate) modulus: &'a [u16],
    pub(crate) residue: &'a [u16],
    ghost pair: { IsPair F.Field.arithmetic modulus.now residue.now },
}

impl<'a, F: Field> Congruence<'a, F> {
    /// The remainder of `p` by the modulus.
    pub(crate) fn remainder_of(&self, p: &[u16]) -> [u16; CAPACITY]
        requires { Codes F.Field.arithmetic p.now }
        ensures divided { IsRemainder F.Field.arithmetic (length self.now.residue.now) (coefficients self.now.modulus.now) (coefficients p.now) (coefficients result) }
        ensures codes { Codes F.Field.arithmetic result }
    {
        let mut remainder = [0; CAPACITY];
        reduce::<F>(p, self.modulus, &mut remainder[0..self.residue.len()]);
        remainder
    }

    /// The inverse of `p` modulo the modulus, where they are coprime, by Euclid's extended algorithm; `p` is
    /// of lower degree.
    pub(crate) fn inverse_of(&self, p: &[u16]) -> [u16; CAPACITY]
        requires fits { length p.now ≤ capacity }
        requires lower { Below (length self.now.residue.now) (coefficients p.now) }
        requires p_codes { Codes F.Field.arithmetic p.now }
        ensures codes { Codes F.Field.arithmetic result }
        ensures below { Below (length self.now.residue.now) (coefficients result) }
        ensures inverts { Coprime F.Field.arithmetic (coefficients self.now.modulus.now) (coefficients p.now) → Congruent F.Field.arithmetic (coefficients self.now.modulus.now) (multiply F.Field.arithmetic (coefficients result) (coefficients p.now)) one }
    {
        let mut euclid = Euclid::start(self.modulus, p);
        euclid.descend::<F>(0);
        let factor = F::inverse(euclid.previous[0]);
        let mut inverse = [0; CAPACITY];
        add_scaled::<F>(&mut inverse, factor, 0, &euclid.t_previous);
        inverse
    }
}
