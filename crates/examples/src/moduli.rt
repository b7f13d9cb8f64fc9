//! Moduli of the worked examples as they are handed in: nine codes each, lowest power first.

/// z, z + 1, z^2 + z + 1, z^3 + z + 1 over bits. With two carriers a word has 7 codes and a message 2.
pub const FOUR_OVER_BITS: [u16; 36] = [
    0, 1, 0, 0, 0, 0, 0, 0, 0, 1, 1, 0, 0, 0, 0, 0, 0, 0, 1, 1, 1, 0, 0, 0, 0, 0, 0, 1, 1, 0, 1, 0,
    0, 0, 0, 0,
];
