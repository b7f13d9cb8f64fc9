//! Gathering what has arrived: the residues that can be used, joined into one polynomial.
ghost use Rattle.std.specs.Prelude.{◌≡◌, ◌<◌, Decides, Some, None, MatchOption};
ghost use Rattle.std.specs.Option.{option_copied};
ghost use Rattle.algebra.specs.Polynomial.{coefficients};
ghost use Rattle.plan.specs.Held.{scheme};
ghost use Rattle.plan.specs.Schemes.{modulus, positions};
ghost use Rattle.poly.specs.Slices.{Codes};
ghost use Rattle.reader.specs.Arrivals.{account_of};
ghost use Rattle.reader.specs.Gathering.{GatheredTo, is_usable, usable};

use crate::arrived::Arrived;
use crate::congruence::Congruence;
use crate::joining::Joined;
use field::Field;
use plan::first_no_code;
use std::marker::PhantomData;

// Whether every number is a code of the field.
fn all_codes<F: Field>(numbers: &[u16]) -> bool
    ensures { Decides result (Codes F.Field.arithmetic numbers.now) }
{
    first_no_code::<F>(numbers).is_none()
}

impl<'a, F: Field> Arrived<'a, F> {
    // Whether a residue can be used at position i: it has as many numbers as the position has codes, and all are codes.
    fn is_usable(&self, i: usize, residue: &[u16]) -> bool
        ensures { result ≡ is_usable (scheme self.now.plan.now) i residue.now }
    {
        residue.len() == self.plan.degree(i) && all_codes::<F>(residue)
    }

    // The residue of position i, if it can be used.
    fn usable_residue(&self, i: usize) -> Option<&'a [u16]>
        ensures { option_copied result ≡ usable (scheme self.now.plan.now) i (account_of self.now.residues.now i) }
    {
        match self.residue(i) {
            Some(residue) if self.is_usable(i, residue) => Some(residue),
            _ => None,
        }
    }

    // That residue with its modulus.
    fn congruence(&self, i: usize) -> Option<Congruence<'a, F>>
        requires { i < positions (scheme self.now.plan.now) }
        ensures { MatchOption result (usable (scheme self.now.plan.now) i (account_of self.now.residues.now i) ≡ None) (λ pair. (usable (scheme self.now.plan.now) i (account_of self.now.residues.now i) ≡ Some pair.residue.now) × (coefficients pair.modulus.now ≡ coefficients (modulus (scheme self.now.plan.now) i))) }
    {
        let residue = self.usable_residue(i)?;
        Some(Congruence {
            field: PhantomData,
            modulus: self.plan.divisor(i),
            residue,
        })
    }

    /// All residues that can be used, joined.
    pub(crate) fn gather(&self) -> Joined<F>
        ensures { GatheredTo (scheme self.now.plan.now) (account_of self.now.residues.now) (positions (scheme self.now.plan.now)) result.degree (coefficients result.product) (coefficients result.value) }
    {
        let mut joined = Joined::start();
        for i in 0..self.plan.positions() {
            if let Some(next) = self.congruence(i) {
                joined.join(&next);
            }
        }
        joined
    }
}
