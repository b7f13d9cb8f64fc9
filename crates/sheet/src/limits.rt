//! The limits of a sheet.
ghost use Rattle.std.specs.Prelude.{◌≤◌};

use plan::MODULUS_CODES;

/// A longer sheet is refused, whatever it holds.
pub const LONGEST_SHEET: usize = 4096;

/// The counts that a section may begin with. A least count of 0 or 1 and a highest of at most two digits are
/// what counts are read by.
#[derive(Clone, Copy)]
pub(crate) struct Counts {
    pub(crate) least: usize,
    pub(crate) most: usize,
    ghost low: { least ≤ 1 },
    ghost some: { 1 ≤ most },
    ghost few: { most ≤ 99 },
}

/// So every count is written with at most this many digits.
pub(crate) const MOST_COUNT_DIGITS: usize = 2;

/// Every sheet names one field.
pub(crate) const FIELDS: Counts = Counts { least: 1, most: 1 };

/// The counts of carrying and of spare moduli.
pub(crate) const MODULI: Counts = Counts {
    least: LEAST_MODULI,
    most: MOST_MODULI,
};

const LEAST_MODULI: usize = 1;

const MOST_MODULI: usize = 23;

/// All moduli of a sheet, carrying and spare, have at most this many codes.
pub(crate) const MOST_MODULI_CODES: usize = 2 * MOST_MODULI * MODULUS_CODES;

/// The counts of calls.
pub(crate) const CALLS: Counts = Counts {
    least: LEAST_CALLS,
    most: MOST_CALLS,
};

const LEAST_CALLS: usize = 0;

/// A sheet has at most this many calls.
pub const MOST_CALLS: usize = 99;

/// The line of the first carrying modulus: before it stand the count and the name of the field, and the count
/// of carrying moduli.
pub(crate) const FIRST_MODULUS_LINE: usize = 3;

/// The first spare modulus stands on this line at the latest: between it and the first carrying one stand
/// those and a count.
pub(crate) const LATEST_SECTION_LINE: usize = FIRST_MODULUS_LINE + MOST_MODULI + 1;

/// A number of a call is written with at most this many digits.
pub(crate) const MOST_CALL_DIGITS: usize = 4;

/// A put carries at most this many codes.
pub(crate) const MOST_PUT_CODES: usize = 8;

/// A measure carries at most this many codes.
pub(crate) const MOST_MEASURE_CODES: usize = 64;

/// Any call carries at most this many codes: a measure more than a put, and the others none.
pub(crate) const MOST_CALL_CODES: usize = MOST_MEASURE_CODES;
