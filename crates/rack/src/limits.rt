//! The limit of a rack.

/// The most slots that a rack has.
pub const MOST_SLOTS: usize = 16;
