//! What a plan keeps: k, the moduli as they were handed in, and where each position of a word starts.
ghost use Rattle.std.specs.Prelude.{◌≡◌, ◌≤◌, length, ⊤};
ghost use Rattle.plan.specs.Agreement.{StartsAgree, kept};
ghost use Rattle.plan.specs.Schemes.{IsScheme};

use crate::limits::{MODULUS_CODES, MOST_POSITIONS, STARTS_TABLE};
use field::Field;
use std::alloc::AllocError;
use std::marker::PhantomData;

/// An accepted choice of field, k and moduli, lawful in every plan that exists. It never changes. The tables
/// are of fixed size, for nothing is allocated; of the moduli the first `positions` count. The starts have a
/// table of their own, since they are one more than the moduli: the last is where a word ends.
pub struct Plan<F: Field> {
    pub(crate) field: PhantomData<F>,
    pub(crate) carriers: usize,
    pub(crate) positions: usize,
    pub(crate) moduli: [[u16; MODULUS_CODES]; MOST_POSITIONS],
    pub(crate) starts: [usize; STARTS_TABLE],
    ghost filled: { positions ≤ length moduli },
    ghost starting: { StartsAgree (kept F.Field.arithmetic carriers positions moduli) starts },
    ghost lawful: { IsScheme (kept F.Field.arithmetic carriers positions moduli) },
}

impl<F: Field> Clone for Plan<F> {
    ghost is_clone = { λ plan copy. copy ≡ plan };

    ghost is_infallible = { λ _. ⊤ };

    fn clone(&self) -> Result<Plan<F>, AllocError> {
        Ok(*self)
    }
}

impl<F: Field> Copy for Plan<F> {}
