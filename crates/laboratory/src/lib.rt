//! Memories and a field that a laboratory wrote itself. docs/OWN-MEMORY.md and docs/OWN-FIELD.md go through
//! them step by step.
#![tactic(auto)]

mod half_bytes;
mod mirrored;
mod nibbles;
mod recall;

pub use half_bytes::HalfByte;
pub use mirrored::{Mirrored, damage_shows};
pub use nibbles::{Nibbles, nibble_product_is_remainder};
pub use recall::set_then_get;
