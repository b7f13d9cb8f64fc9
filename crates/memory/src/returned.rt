//! What a maker that refuses a memory answers.
use crate::meaning::Memory;

/// A memory that could not be used, handed back as it was, and why.
#[derive(Drop)]
pub struct Returned<M: Memory, E> {
    pub memory: M,
    pub fault: E,
}
