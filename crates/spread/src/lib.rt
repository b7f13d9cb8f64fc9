//! The spreading layer: a memory whose neighbouring cells lie far apart in the memory below it.
#![tactic(auto)]

ghost use Rattle.std.specs.Prelude.{◌≡◌, ℕ, ◌<◌, ◌≤◌, true, false, length, MatchOption, MatchResult, Some};
ghost use Rattle.memory.specs.Meaning.{max_cells};
ghost use Rattle.spread.specs.Place.{Missing, Permutes, Stands, depth_ground, depth_sentence, divides, place, placed, spread_row, spread_row_bounded};

use fault::{Fault, Ground, Layer, ShortText};
use memory::{Memory, Returned};
use std::error::Error;
use std::fmt;

/// The number of the ground on which a depth is refused.
const DEPTH_GROUND: u8 = 8;

/// A depth that is 0, or that does not divide the number of cells.
#[derive(Clone, Copy, PartialEq, Eq, Debug)]
pub struct DepthFault;

impl Fault for DepthFault {
    ghost meaning = { λ _. depth_ground };

    ghost saying = { λ _. depth_sentence };

    fn ground(&self) -> Ground {
        Ground {
            number: DEPTH_GROUND,
            layer: Layer::Memory,
            first: 0,
            second: 0,
        }
    }

    fn sentence(&self) -> ShortText {
        ShortText::new("the depth is 0, or does not divide the number of cells")
    }
}

impl fmt::Display for DepthFault {
    ghost output = { λ _. Some depth_sentence };

    fn fmt<W: fmt::Write>(&self, f: &mut fmt::Formatter<W>) -> fmt::Result {
        f.write_str(self.sentence().as_str())
    }
}

impl Error for DepthFault {}

/// A memory over another memory of L cells: cell j is the cell (j mod D) × (L div D) + (j div D) below, D
/// being the depth.
#[derive(Drop)]
pub struct Spread<M: Memory> {
    below: M,
    depth: usize,
    ghost divided: { divides depth (length (M.cells below)) ≡ true },
}

impl<M: Memory> Spread<M> {
    /// Spreads a memory. The depth must divide its number of cells.
    pub fn new(below: M, depth: usize) -> Result<Spread<M>, Returned<M, DepthFault>>
        ensures { MatchResult result (λ layer. (divides depth (length (M.cells below)) ≡ true) × (layer.below ≡ below) × (layer.depth ≡ depth)) (λ no. (divides depth (length (M.cells below)) ≡ false) × (no ≡ record { memory = below; fault = record {} })) }
    {
        if depth == 0 || below.len() % depth != 0 {
            return Err(Returned {
                memory: below,
                fault: DepthFault,
            });
        }
        Ok(Spread { below, depth })
    }

    /// Takes the layer off again.
    pub fn into_below(self) -> M
        ensures { result ≡ self.below }
    {
        let Spread { below, depth: _ } = self;
        below
    }

    /// Where cell j lies below, or nothing when there is no cell j.
    #[tactic(auto, using(crate::proofs::Places::place_permutes, crate::proofs::Places::missing, crate::proofs::Places::stands_divided))]
    pub fn place_below(&self, j: usize) -> Option<usize>
        ensures value { result ≡ placed self.now.depth (length (M.cells self.now.below)) j }
        ensures stands { MatchOption result (Missing self.now.depth (M.cells self.now.below) j) (Stands self.now.depth (M.cells self.now.below) j) }
        ensures numbering { Permutes (length (M.cells self.now.below)) (place self.now.depth (length (M.cells self.now.below))) }
    {
        let len = self.below.len();
        if j >= len {
            return None;
        }
        Some(j % self.depth * (len / self.depth) + j / self.depth)
    }
}

impl<M: Memory> Memory for Spread<M> {
    ghost cells = { λ s. spread_row s.depth (M.Memory.cells s.below) };

    ghost top = { λ s. M.Memory.top s.below };

    ghost bounded = { λ s. spread_row_bounded s.depth (M.Memory.cells s.below) (M.Memory.top s.below) (M.Memory.bounded s.below) };

    #[tactic(auto, using(crate::specs::Place::spread_row_length))]
    fn len(&self) -> usize {
        self.below.len()
    }

    fn top_value(&self) -> u16 {
        self.below.top_value()
    }

    fn get(&self, j: usize) -> Option<u16> {
        let at = self.place_below(j)?;
        self.below.get(at)
    }

    fn set(&mut self, j: usize, v: u16) -> bool {
        let Some(at) = self.place_below(j) else {
            return false;
        };
        self.below.set(at, v)
    }
}
