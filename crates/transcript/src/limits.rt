//! How long a transcript's text can be.
use fault::LONGEST_LINE;
use numbers::LONGEST_NUMBER;
use plan::MOST_TOTAL;
use sheet::MOST_CALLS;

// No call's line is longer: what a refusal takes, the codes of a buffer, and the end of the line.
const LONGEST_CALL_LINE: usize = LONGEST_LINE + MOST_TOTAL * LONGEST_NUMBER + 1;

/// No transcript's text has more bytes.
pub const LONGEST_TEXT: usize = MOST_CALLS * LONGEST_CALL_LINE;
