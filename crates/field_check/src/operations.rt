//! Operations to be tried, a field among them.

/// Operations on the codes below an order.
pub(crate) trait Operations {
    const ORDER: u16;

    fn sum(a: u16, b: u16) -> u16;

    fn negative(a: u16) -> u16;

    fn product(a: u16, b: u16) -> u16;
}

/// The product of two nibbles as bit polynomials, reduced by a modulus of degree 4.
fn multiply(a: u16, b: u16, modulus: u16) -> u16 {
    let mut sum = 0;
    let mut moved = a;
    let mut rest = b;
    for _ in 0..4 {
        sum ^= rest % 2 * moved;
        moved = moved % 16 * 2;
        if moved >= 16 {
            moved ^= modulus;
        }
        rest /= 2;
    }
    sum
}

/// Nibbles reduced by x^4 + x + 1.
pub(crate) struct ByFourthAndX;

impl Operations for ByFourthAndX {
    const ORDER: u16 = 16;

    fn sum(a: u16, b: u16) -> u16 {
        a ^ b
    }

    fn negative(a: u16) -> u16 {
        a
    }

    fn product(a: u16, b: u16) -> u16 {
        multiply(a, b, 0x13)
    }
}

/// Nibbles reduced by x^4 + 1, which is (x + 1)^4.
pub(crate) struct ByFourthAndOne;

impl Operations for ByFourthAndOne {
    const ORDER: u16 = 16;

    fn sum(a: u16, b: u16) -> u16 {
        a ^ b
    }

    fn negative(a: u16) -> u16 {
        a
    }

    fn product(a: u16, b: u16) -> u16 {
        multiply(a, b, 0x11)
    }
}

/// The numbers modulo 9, which is no prime.
pub(crate) struct ModuloNine;

impl Operations for ModuloNine {
    const ORDER: u16 = 9;

    fn sum(a: u16, b: u16) -> u16 {
        (a % 9 + b % 9) % 9
    }

    fn negative(a: u16) -> u16 {
        (9 - a % 9) % 9
    }

    fn product(a: u16, b: u16) -> u16 {
        a % 9 * (b % 9) % 9
    }
}

/// Two codes with `or` for the sum and `and` for the product.
pub(crate) struct Alternatives;

impl Operations for Alternatives {
    const ORDER: u16 = 2;

    fn sum(a: u16, b: u16) -> u16 {
        a | b
    }

    fn negative(a: u16) -> u16 {
        a
    }

    fn product(a: u16, b: u16) -> u16 {
        a & b
    }
}
