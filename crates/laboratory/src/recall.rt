//! What is proved of every memory holds of a laboratory's own.
ghost use Rattle.std.specs.Prelude.{◌≡◌, if◌then◌else◌, Some};
ghost use Rattle.memory.specs.Meaning.{accepts, cell_at};

use memory::Memory;

/// Sets a cell of any memory and gets it: an accepted number comes back, and a refused one has left the cell alone.
pub fn set_then_get<M: Memory>(memory: &mut M, j: usize, v: u16) -> Option<u16>
    ensures { result ≡ (if accepts (M.cells memory.old) (M.top memory.old) j v then Some v else cell_at (M.cells memory.old) j) }
{
    memory.set(j, v);
    memory.get(j)
}
