//! What every memory promises.
ghost use Rattle.std.specs.Prelude.{◌≡◌, ℕ, List, length};
ghost use Rattle.memory.specs.Meaning.{Bounded, Gets, Sets};

/// A row of cells, numbered from 0, each a number from 0 to the memory's top.
///
/// Its meaning are the ghost members `cells` and `top`. It keeps a law, `bounded`: both are within their limits.
pub trait Memory {
    ghost cells: { Self → List ℕ };

    ghost top: { Self → ℕ };

    /// How many cells there are.
    fn len(&self) -> usize
        ensures { result ≡ length (cells self.now) };

    /// The highest number that a cell can hold.
    fn top_value(&self) -> u16
        ensures { result ≡ top self.now };

    /// Cell j, or nothing when there is no such cell.
    fn get(&self, j: usize) -> Option<u16>
        ensures { Gets (cells self.now) (top self.now) j result };

    /// Replaces cell j, and no other, by v. Refuses, and alters nothing, when there is no cell j or v is
    /// above the top. Answers whether it was accepted, and no error: which of the two a refusal was is plain
    /// from `len` and `top_value`.
    fn set(&mut self, j: usize, v: u16) -> bool
        ensures { Sets (cells self.old) (top self.old) j v result (cells self.new) (top self.new) };

    ghost bounded: { (m : Self) → Bounded (cells m) (top m) };
}
