//! The limits of an expression, each under one name.
use plan::MODULUS_CODES;

/// A number is written with at most this many digits.
pub const MOST_DIGITS: usize = 3;

/// At most this many brackets are open together.
pub const MOST_BRACKETS: u8 = 8;

/// A product of two values has as many codes as its degree can ask for.
pub const PRODUCT_CODES: usize = MODULUS_CODES + MODULUS_CODES - 1;
