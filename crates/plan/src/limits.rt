//! The limits of a plan, each under one name, and the size of the table that follows from them.

/// A modulus is handed in as this many codes, so its degree is at most 8.
pub const MODULUS_CODES: usize = 9;

/// A constant is no modulus.
pub const LEAST_DEGREE: usize = 1;

pub const FEWEST_POSITIONS: usize = 2;

pub const MOST_POSITIONS: usize = 24;

/// The degrees of all moduli sum to this at most.
pub const MOST_TOTAL: usize = 64;

/// One start for each position, and the end of the last.
pub const STARTS_TABLE: usize = MOST_POSITIONS + 1;
