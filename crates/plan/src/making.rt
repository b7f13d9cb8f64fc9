//! Making a plan: the checks in their order, each by its own function.
ghost use Rattle.std.specs.Prelude.{◌≡◌, ℕ, ◌+◌, ◌<◌, ◌≤◌, List, length, replicate, Decides, MatchOption, MatchResult};
ghost use Rattle.algebra.specs.Field.{Arithmetic};
ghost use Rattle.algebra.specs.Polynomial.{Below, coefficients};
ghost use Rattle.plan.specs.Agreement.{StartsAgree};
ghost use Rattle.plan.specs.Drafts.{drafted};
ghost use Rattle.plan.specs.Held.{scheme};
ghost use Rattle.plan.specs.Limits.{modulus_codes, most_positions};
ghost use Rattle.plan.specs.Refusals.{Accepted, FirstBadModulus, FirstClash, Refused};
ghost use Rattle.plan.specs.Schemes.{AreModuli, Clash, degree_of, handed_in, IsModulus, IsShaped};
ghost use Rattle.plan.specs.Tables.{table_of};
ghost use Rattle.plan.specs.declared.faults.PlanFault.TheVariants.{Shape};

use crate::codes::first_no_code;
use crate::drafts::Draft;
use crate::faults::PlanFault;
use crate::limits::*;
use crate::plans::Plan;
use field::Field;
use poly::{coprime, degree};
use std::marker::PhantomData;

/// The degree of a polynomial, 0 for zero.
fn degree_or_zero(m: &[u16; MODULUS_CODES]) -> usize
    ensures value { result ≡ degree_of m.now }
    ensures bound { result < modulus_codes }
{
    let d = degree(m);
    if d < 0 { 0 } else { d as usize }
}

/// Whether the codes are those of a modulus: codes of the field, of degree 1 or more, the leading one being 1.
fn is_modulus<F: Field>(m: &[u16; MODULUS_CODES]) -> bool
    ensures { Decides result (IsModulus F.Field.arithmetic m.now) }
{
    if first_no_code::<F>(m).is_some() {
        return false;
    }
    let d = degree_or_zero(m);
    if d < LEAST_DEGREE {
        return false;
    }
    m[d] == 1
}

impl<'a> Draft<'a> {
    /// k and the moduli that the codes hold, where k and their number are in range and the codes are whole groups.
    fn new(carriers: usize, codes: &'a [u16]) -> Result<Draft<'a>, PlanFault>
        ensures { MatchResult result (λ draft. IsShaped carriers codes.now × ((f : Arithmetic) → drafted f draft ≡ handed_in f carriers codes.now)) (λ fault. (fault ≡ Shape) × (IsShaped carriers codes.now → ⊥)) }
    {
        let (moduli, rest) = codes.as_chunks::<MODULUS_CODES>();
        let n = moduli.len();
        let left_over = rest.len();
        if left_over != 0 || n < FEWEST_POSITIONS || n > MOST_POSITIONS {
            return Err(PlanFault::Shape);
        }
        if carriers < 1 || carriers >= n {
            return Err(PlanFault::Shape);
        }
        Ok(Draft { carriers, moduli })
    }

    /// The first modulus that is none.
    fn first_bad_modulus<F: Field>(&self) -> Option<usize>
        ensures { MatchOption result (AreModuli (drafted F.Field.arithmetic self.now)) (λ i. FirstBadModulus (drafted F.Field.arithmetic self.now) i) }
    {
        self.moduli
            .iter()
            .position(|modulus| !is_modulus::<F>(modulus))
    }

    /// Where each position of a word starts, and where the last ends, in a table with zeros after them.
    fn starts(&self) -> [usize; STARTS_TABLE]
        ensures agree { (f : Arithmetic) → StartsAgree (drafted f self.now) result }
        ensures zeros { Below (length self.now.moduli.now + 1) (coefficients result) }
    {
        let mut starts = [0; STARTS_TABLE];
        let mut end = 0usize;
        for (i, modulus) in self.moduli.iter().enumerate() {
            end += degree_or_zero(modulus);
            starts[i + 1] = end;
        }
        starts
    }

    /// The first pair of moduli that share a factor.
    fn first_clash<F: Field>(&self) -> Option<(usize, usize)>
        requires { AreModuli (drafted F.Field.arithmetic self.now) }
        ensures { MatchOption result ((i j : ℕ) → i < j → j < length self.now.moduli.now → Clash (drafted F.Field.arithmetic self.now) i j → ⊥) (λ p. FirstClash (drafted F.Field.arithmetic self.now) p.0 p.1) }
    {
        let mut clash = None;
        // Pair by pair, row by row, and left at the first.
        'pairs: for i in 0..self.moduli.len() {
            for j in i + 1..self.moduli.len() {
                if !coprime::<F>(&self.moduli[i], &self.moduli[j]) {
                    clash = Some((i, j));
                    break 'pairs;
                }
            }
        }
        clash
    }

    /// The moduli in a table of fixed size, zeros after them.
    fn table(&self) -> [[u16; MODULUS_CODES]; MOST_POSITIONS]
        ensures { result ≡ table_of most_positions (replicate modulus_codes 0) self.now.moduli.now }
    {
        let mut table = [[0; MODULUS_CODES]; MOST_POSITIONS];
        table[0..self.moduli.len()].copy_from_slice(self.moduli);
        table
    }
}

impl<F: Field> Plan<F> {
    /// The plan of k and the moduli, nine codes to each; or the first fault that they have.
    pub fn new(carriers: usize, codes: &[u16]) -> Result<Plan<F>, PlanFault>
        ensures { MatchResult result (λ p. Accepted F.Field.arithmetic carriers codes.now × (scheme p ≡ handed_in F.Field.arithmetic carriers codes.now)) (λ fault. Refused F.Field.arithmetic carriers codes.now fault) }
    {
        let draft = Draft::new(carriers, codes)?;
        if let Some(i) = draft.first_bad_modulus::<F>() {
            return Err(PlanFault::Modulus(i));
        }
        let positions = draft.moduli.len();
        let starts = draft.starts();
        if starts[positions] > MOST_TOTAL {
            return Err(PlanFault::TotalDegree);
        }
        if let Some((i, j)) = draft.first_clash::<F>() {
            return Err(PlanFault::SharedFactor(i, j));
        }
        Ok(Plan {
            field: PhantomData,
            carriers: draft.carriers,
            positions,
            moduli: draft.table(),
            starts,
        })
    }
}
