//! Codes in the cells of a memory.
ghost use Rattle.std.specs.Prelude.{◌≡◌, ◌+◌, ◌≤◌, length, slice_index};
ghost use Rattle.memory.specs.Meaning.{max_cells};
ghost use Rattle.plan.specs.Limits.{most_total};
ghost use Rattle.rack.specs.Stored.{Loaded, Stored};

use memory::Memory;
use plan::MOST_TOTAL;

/// Sets the cells from `at` on to the codes. A memory that a rack fits takes every one of them, so no answer
/// is looked at.
pub(crate) fn store<M: Memory>(memory: &mut M, at: usize, codes: &[u16])
    requires { at + length codes.now ≤ max_cells }
    ensures { Stored (M.cells memory.old) (M.top memory.old) at codes.now (M.cells memory.new) (M.top memory.new) }
{
    for (i, code) in codes.iter().enumerate() {
        memory.set(at + i, *code);
    }
}

// Cell j, or 0 where there is none.
fn cell<M: Memory>(memory: &M, j: usize) -> u16
    ensures { result ≡ slice_index (M.cells memory.now) j }
{
    memory.get(j).unwrap_or(0)
}

/// The `count` cells from `at` on, in a table that has zeros after them, and where there is no cell.
pub(crate) fn load<M: Memory>(memory: &M, at: usize, count: usize) -> [u16; MOST_TOTAL]
    requires place { at + count ≤ max_cells }
    requires few { count ≤ most_total }
    ensures { Loaded (M.cells memory.now) at count result }
{
    let mut table = [0; MOST_TOTAL];
    for i in 0..count {
        table[i] = cell(memory, at + i);
    }
    table
}
