//! Joining residues, one modulus at a time, by the Chinese remainder theorem.
ghost use Rattle.std.specs.Prelude.{◌≡◌, ◌+◌, ◌<◌, length};
ghost use Rattle.algebra.specs.Moduli.{Congruent, Coprime, nought, one};
ghost use Rattle.algebra.specs.Polynomial.{Below, add, coefficients, multiply};
ghost use Rattle.poly.specs.Slices.{Codes, capacity};
ghost use Rattle.reader.specs.States.{IsState};

use crate::congruence::Congruence;
use field::Field;
use poly::{CAPACITY, add_to, multiply, subtract_from};
use std::marker::PhantomData;

/// The product M of the moduli joined so far, its degree, and the polynomial Y of lower degree that leaves
/// their residues. The tables are of fixed size, since nothing is allocated.
#[derive(Drop)]
pub(crate) struct Joined<F: Field> {
    field: PhantomData<F>,
    pub(crate) product: [u16; CAPACITY],
    pub(crate) value: [u16; CAPACITY],
    pub(crate) degree: usize,
    ghost state: { IsState F.Field.arithmetic product value degree },
}

impl<F: Field> Joined<F> {
    ghost use Rattle.reader.specs.Joining.{JoinedBy};

    /// No modulus yet: M = 1 and Y = 0.
    pub(crate) fn start() -> Joined<F>
        ensures product { coefficients result.product ≡ one }
        ensures value { coefficients result.value ≡ nought }
        ensures degree { result.degree ≡ 0 }
    {
        let mut product = [0; CAPACITY];
        product[0] = 1;
        Joined {
            field: PhantomData,
            product,
            value: [0; CAPACITY],
            degree: 0,
        }
    }

    /// c of lower degree than the modulus, such that Y + M·c leaves the residue: (y − Y)·M⁻¹, all by their remainders.
    fn correction(&self, next: &Congruence<F>) -> [u16; CAPACITY]
        ensures codes { Codes F.Field.arithmetic result }
        ensures below { Below (length next.now.residue.now) (coefficients result) }
        ensures closes { Coprime F.Field.arithmetic (coefficients self.now.product) (coefficients next.now.modulus.now) → Congruent F.Field.arithmetic (coefficients next.now.modulus.now) (add F.Field.arithmetic (coefficients self.now.value) (multiply F.Field.arithmetic (coefficients self.now.product) (coefficients result))) (coefficients next.now.residue.now) }
    {
        let degree = next.residue.len();
        let inverse = next.inverse_of(&next.remainder_of(&self.product));
        let mut gap = next.remainder_of(next.residue);
        subtract_from::<F>(&mut gap, &next.remainder_of(&self.value));
        let mut scaled = [0; CAPACITY];
        multiply::<F>(&gap[0..degree], &inverse[0..degree], &mut scaled);
        next.remainder_of(&scaled)
    }

    /// Takes in one more modulus with its residue.
    pub(crate) fn join(&mut self, next: &Congruence<F>)
        requires { self.old.degree + length next.now.residue.now < capacity }
        ensures { JoinedBy next.now.modulus.now next.now.residue.now self.old self.new }
    {
        let count = self.degree + 1;
        let factor = self.product;
        let correction = self.correction(next);
        let mut addend = [0; CAPACITY];
        multiply::<F>(
            &factor[0..count],
            &correction[0..next.residue.len()],
            &mut addend,
        );
        let mut value = self.value;
        add_to::<F>(&mut value, &addend);
        let mut product = [0; CAPACITY];
        multiply::<F>(&factor[0..count], next.modulus, &mut product);
        self.product = product;
        self.value = value;
        self.degree += next.residue.len();
    }
}
