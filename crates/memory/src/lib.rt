//! Cell memories: what a memory is, and the memories over a buffer that the caller lends.
#![tactic(auto)]

mod bits;
mod cell;
mod lent;
mod limits;
mod meaning;
mod returned;

pub use bits::Bit;
pub use cell::Cell;
pub use lent::{ByteCells, LentCells, PackedCells, WordCells, set_cell};
pub use limits::{MAX_CELLS, MAX_TOP};
pub use meaning::Memory;
pub use returned::Returned;
