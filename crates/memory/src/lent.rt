//! The memories over a buffer that the caller lends.
ghost use Rattle.std.specs.Prelude.{◌≡◌, length};
ghost use Rattle.memory.specs.Meaning.{Sets, accepts, replaced};
ghost use Rattle.memory.specs.Buffers.{held, held_bounded};

use crate::bits::Bit;
use crate::cell::Cell;
use crate::meaning::Memory;

/// A memory over a lent buffer that holds cells of the kind C.
#[derive(Drop)]
pub struct LentCells<'a, C: Cell> {
    buffer: &'a mut [C::Unit],
}

/// A memory over a lent buffer of bytes, one to a cell.
pub type ByteCells<'a> = LentCells<'a, u8>;

/// A memory over a lent buffer of sixteen-bit words, one to a cell.
pub type WordCells<'a> = LentCells<'a, u16>;

/// A memory over a lent buffer of bytes: cell j is bit j mod 8 of byte j div 8, bit 0 being the lowest.
pub type PackedCells<'a> = LentCells<'a, Bit>;

impl<'a, C: Cell> LentCells<'a, C> {
    /// The memory whose cells are those that lie in the buffer, or their first `MAX_CELLS`.
    pub fn new(buffer: &'a mut [C::Unit]) -> LentCells<'a, C>
        ensures { result.buffer ≡ buffer.entry }
    {
        LentCells { buffer }
    }
}

#[tactic(auto, using(crate::proofs::Held::held_length))]
impl<C: Cell> Memory for LentCells<'_, C> {
    ghost cells = { λ m. held (C.cells m.buffer.now) };

    ghost top = { λ _. C.TOP };

    ghost bounded = { λ m. held_bounded (C.cells m.buffer.now) C.TOP C.ranged.0 C.ranged.1 };

    fn len(&self) -> usize {
        C::count(self.buffer)
    }

    fn top_value(&self) -> u16 {
        C::TOP
    }

    fn get(&self, j: usize) -> Option<u16> {
        if j < self.len() {
            Some(C::get(self.buffer, j))
        } else {
            None
        }
    }

    fn set(&mut self, j: usize, v: u16) -> bool
        ensures sets { Sets (held (C.cells self.old.buffer.now)) C.TOP j v result (held (C.cells self.new.buffer.now)) C.TOP }
        ensures buffer { C.cells self.new.buffer.now ≡ replaced result (C.cells self.old.buffer.now) j v }
        ensures lender { self.new.buffer.ghost_name ≡ self.old.buffer.ghost_name }
    {
        if j >= self.len() || v > C::TOP {
            return false;
        }
        C::put(self.buffer, j, v);
        true
    }
}

/// Lends the buffer to a memory, sets one cell, and ends the memory: cell j alone is replaced, if that was accepted.
pub fn set_cell<C: Cell>(buffer: &mut [C::Unit], j: usize, v: u16) -> bool
    ensures answer { result ≡ accepts (held (C.cells buffer.old)) C.TOP j v }
    ensures after { C.cells buffer.new ≡ replaced result (C.cells buffer.old) j v }
{
    let mut cells = LentCells::<C>::new(buffer);
    cells.set(j, v)
}
