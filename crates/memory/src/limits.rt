//! The limits of every memory. The specs call them `max_cells` and `max_top`.
ghost use Rattle.std.specs.Prelude.{◌≡◌};
ghost use Rattle.memory.specs.Buffers.{held_len};

/// The most cells that a memory has.
pub const MAX_CELLS: usize = 65_535;

/// The highest number that a cell of any memory can hold.
pub const MAX_TOP: u16 = 65_535;

// How many cells a memory has over a buffer with room for so many.
pub(crate) fn held_len(room: usize) -> usize
    ensures { result ≡ held_len room }
{
    room.min(MAX_CELLS)
}
