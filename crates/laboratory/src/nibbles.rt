//! The field of sixteen elements: nibbles as polynomials of four bits, multiplied modulo x^4 + x + 1.
ghost use Rattle.std.specs.Prelude.{◌≡◌, ◌<◌, refl};
ghost use Rattle.laboratory.specs.Nibbles.{NibbleProductIsRemainder, nibble_arithmetic, nibble_product};
ghost use Rattle.laboratory.specs.Sixteen.{sixteen};

use field::Field;

/// Nibbles, numbers of four bits: the sum is exclusive or, the product that of bit polynomials reduced by 0x13.
#[derive(Clone, Copy)]
pub struct Nibbles;

// The polynomial that products are reduced by, bit by bit: x^4 + x + 1.
const MODULUS: u16 = 0x13;

// The inverse of each nibble, and 0 at 0.
const INVERSES: [u16; 16] = [0, 1, 9, 14, 13, 11, 7, 6, 15, 2, 12, 5, 10, 4, 3, 8];

/// x times a nibble: its bits move up by one place, and a fifth bit is cleared by the modulus.
fn times_x(a: u16) -> u16
    requires { a < 16 }
    ensures { result ≡ nibble_product 2 a }
{
    let moved = 2 * a;
    if moved < Nibbles::ORDER {
        moved
    } else {
        moved ^ MODULUS
    }
}

/// The product of two nibbles: the sum of those among a, x · a, x^2 · a and x^3 · a for which b has a bit.
fn multiply(a: u16, b: u16) -> u16
    requires a_code { a < 16 }
    requires b_code { b < 16 }
    ensures { result ≡ nibble_product a b }
{
    let mut sum = 0;
    let mut moved = a;
    let mut rest = b;
    while rest > 0 {
        sum ^= rest % 2 * moved;
        moved = times_x(moved);
        rest /= 2;
    }
    sum
}

/// The product of two nibbles is the remainder of their product as bit polynomials by 0x13. The function does
/// nothing: it asks for the theorem.
pub fn nibble_product_is_remainder()
    ensures { NibbleProductIsRemainder }
{}

impl Field for Nibbles {
    const ORDER: u16 = 16;

    ghost ORDER = { 16 };

    ghost arithmetic = { nibble_arithmetic };

    ghost lawful = { sixteen };

    ghost counted = { refl };

    fn sum(a: u16, b: u16) -> u16 {
        if a < Self::ORDER && b < Self::ORDER {
            a ^ b
        } else {
            0
        }
    }

    // Every nibble is its own negative.
    fn negative(a: u16) -> u16 {
        if a < Self::ORDER { a } else { 0 }
    }

    fn product(a: u16, b: u16) -> u16 {
        if a < Self::ORDER && b < Self::ORDER {
            multiply(a, b)
        } else {
            0
        }
    }

    fn inverse(a: u16) -> u16 {
        if a < Self::ORDER {
            INVERSES[a as usize]
        } else {
            0
        }
    }
}
