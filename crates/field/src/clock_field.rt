//! The field of 257 elements: arithmetic modulo the prime 257.
ghost use Rattle.std.specs.Prelude.{refl};
ghost use Rattle.algebra.specs.Arithmetics.{modulo};
ghost use Rattle.algebra.proofs.Modular.{clock_laws};

use crate::Field;
use crate::clock_inverses::INVERSES;

/// The numbers from 0 to 256 modulo 257.
#[derive(Clone, Copy)]
pub struct Clock;

impl Field for Clock {
    const ORDER: u16 = 257;

    ghost ORDER = { 257 };

    ghost arithmetic = { modulo 257 };

    ghost lawful = { clock_laws };

    ghost counted = { refl };

    fn sum(a: u16, b: u16) -> u16 {
        if a < Self::ORDER && b < Self::ORDER {
            (a + b) % Self::ORDER
        } else {
            0
        }
    }

    fn negative(a: u16) -> u16 {
        if a < Self::ORDER {
            (Self::ORDER - a) % Self::ORDER
        } else {
            0
        }
    }

    fn product(a: u16, b: u16) -> u16 {
        if a < Self::ORDER && b < Self::ORDER {
            ((a as u32 * b as u32) % Self::ORDER as u32) as u16
        } else {
            0
        }
    }

    fn inverse(a: u16) -> u16 {
        if a < Self::ORDER {
            INVERSES[a as usize]
        } else {
            0
        }
    }
}
