//! The kinds of cells that a lent buffer can hold.
ghost use Rattle.std.specs.Prelude.{◌≡◌, ℕ, ◌<◌, ◌≤◌, List, length, slice_index, slice_set};
ghost use Rattle.std.proofs.Common.{lit≤};
ghost use Rattle.memory.specs.Meaning.{max_top};
ghost use Rattle.memory.specs.Buffers.{byte_top, held_len};

use crate::limits::{MAX_TOP, held_len};

/// A kind of cells, and how a row of them lies in a buffer.
///
/// Its meaning are the ghost members `TOP` and `cells`: the top, and the row of all cells of a buffer. It
/// keeps a law, `ranged`: the top is in its range.
pub trait Cell {
    /// What the buffer is made of.
    type Unit;

    /// The highest number that a cell can hold.
    const TOP: u16;

    ghost TOP: { ℕ };

    ghost cells: { List Self.Unit → List ℕ };

    /// How many cells a memory over this buffer has: all that lie in it, or `MAX_CELLS`.
    fn count(buffer: &[Self::Unit]) -> usize
        ensures { result ≡ held_len (length (cells buffer.now)) };

    /// Cell j.
    fn get(buffer: &[Self::Unit], j: usize) -> u16
        requires { j < length (cells buffer.now) }
        ensures value { result ≡ slice_index (cells buffer.now) j }
        ensures within { result ≤ TOP };

    /// Replaces cell j, and no other, by v.
    fn put(buffer: &mut [Self::Unit], j: usize, v: u16)
        requires inside { j < length (cells buffer.old) }
        requires small { v ≤ TOP }
        ensures { cells buffer.new ≡ slice_set (cells buffer.old) j v };

    ghost ranged: { (1 ≤ TOP) × (TOP ≤ max_top) };
}

/// Cells of one byte.
impl Cell for u8 {
    type Unit = u8;

    const TOP: u16 = 255;

    ghost TOP = { byte_top };

    ghost cells = { λ bytes. bytes };

    ghost ranged = { (lit≤ tt, lit≤ tt) };

    fn count(buffer: &[u8]) -> usize {
        held_len(buffer.len())
    }

    fn get(buffer: &[u8], j: usize) -> u16 {
        u16::from(buffer[j])
    }

    fn put(buffer: &mut [u8], j: usize, v: u16) {
        buffer[j] = v as u8;
    }
}

/// Cells of sixteen bits.
impl Cell for u16 {
    type Unit = u16;

    const TOP: u16 = MAX_TOP;

    ghost TOP = { max_top };

    ghost cells = { λ words. words };

    ghost ranged = { (lit≤ tt, lit≤ tt) };

    fn count(buffer: &[u16]) -> usize {
        held_len(buffer.len())
    }

    fn get(buffer: &[u16], j: usize) -> u16 {
        buffer[j]
    }

    fn put(buffer: &mut [u16], j: usize, v: u16) {
        buffer[j] = v;
    }
}
