//! What is handed in to make a plan of: k and moduli whose numbers are in range, before the moduli themselves
//! are looked at.
ghost use Rattle.std.specs.Prelude.{◌<◌, ◌≤◌, length};
ghost use Rattle.plan.specs.Limits.{fewest_positions, most_positions};

use crate::limits::MODULUS_CODES;

/// k and the moduli as they were handed in.
#[derive(Clone, Copy)]
pub(crate) struct Draft<'a> {
    pub(crate) carriers: usize,
    pub(crate) moduli: &'a [[u16; MODULUS_CODES]],
    ghost enough: { fewest_positions ≤ length moduli.now },
    ghost few: { length moduli.now ≤ most_positions },
    ghost carrying: { 1 ≤ carriers },
    ghost spare: { carriers < length moduli.now },
}
