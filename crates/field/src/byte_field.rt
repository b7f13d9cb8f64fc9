//! The field of 256 elements: bytes as polynomials of eight bits, multiplied modulo x^8 + x^4 + x^3 + x^2 + 1 (0x11D).
//! Every byte but 0 is a power of the byte 2, so a product is a sum of two exponents looked up in a table.
ghost use Rattle.std.specs.Prelude.{◌≡◌, ◌+◌, ◌<◌, refl};
ghost use Rattle.algebra.specs.Arithmetics.{byte_arithmetic};
ghost use Rattle.algebra.specs.BitPolynomials.{power_of_two};
ghost use Rattle.algebra.proofs.Bytes.{bytes};

use crate::Field;
use crate::byte_exponents::EXPONENTS;
use crate::byte_powers::POWERS;

/// Bytes: the sum is exclusive or, the product that of bit polynomials reduced by 0x11D.
#[derive(Clone, Copy)]
pub struct Bytes;

// The 255th power of 2 is 1 again.
const TURN: usize = 255;

fn power(exponent: usize) -> u16
    requires { exponent < 510 }
    ensures { result ≡ power_of_two exponent }
{
    POWERS[exponent] as u16
}

fn exponent(a: u16) -> usize
    requires nonzero { 0 < a }
    requires code { a < 256 }
    ensures value { power_of_two result ≡ a }
    ensures bound { result < 255 }
{
    EXPONENTS[a as usize] as usize
}

impl Field for Bytes {
    const ORDER: u16 = 256;

    ghost ORDER = { 256 };

    ghost arithmetic = { byte_arithmetic };

    ghost lawful = { bytes };

    ghost counted = { refl };

    fn sum(a: u16, b: u16) -> u16 {
        if a < Self::ORDER && b < Self::ORDER {
            a ^ b
        } else {
            0
        }
    }

    fn negative(a: u16) -> u16 {
        if a < Self::ORDER { a } else { 0 }
    }

    fn product(a: u16, b: u16) -> u16 {
        if a >= Self::ORDER || b >= Self::ORDER || a == 0 || b == 0 {
            return 0;
        }
        power(exponent(a) + exponent(b))
    }

    fn inverse(a: u16) -> u16 {
        if a >= Self::ORDER || a == 0 {
            return 0;
        }
        power(TURN - exponent(a))
    }
}
