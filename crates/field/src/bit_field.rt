//! The field of two elements: arithmetic modulo 2.
ghost use Rattle.std.specs.Prelude.{refl};
ghost use Rattle.algebra.specs.Arithmetics.{modulo};
ghost use Rattle.algebra.proofs.Modular.{bit_laws};

use crate::Field;

/// The numbers 0 and 1 modulo 2. Not one type with `Clock` over a constant: here sums and products are single
/// instructions, and no table of inverses is needed.
#[derive(Clone, Copy)]
pub struct Bits;

impl Field for Bits {
    const ORDER: u16 = 2;

    ghost ORDER = { 2 };

    ghost arithmetic = { modulo 2 };

    ghost lawful = { bit_laws };

    ghost counted = { refl };

    fn sum(a: u16, b: u16) -> u16 {
        if a < Self::ORDER && b < Self::ORDER {
            a ^ b
        } else {
            0
        }
    }

    fn negative(a: u16) -> u16 {
        if a < Self::ORDER { a } else { 0 }
    }

    fn product(a: u16, b: u16) -> u16 {
        if a < Self::ORDER && b < Self::ORDER {
            a & b
        } else {
            0
        }
    }

    // 1 alone has an inverse, itself.
    fn inverse(a: u16) -> u16 {
        if a == 1 { 1 } else { 0 }
    }
}
