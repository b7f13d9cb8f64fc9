//! Cells of one bit, eight to a byte.
ghost use Rattle.std.specs.Prelude.{◌≡◌, ℕ, ◌*◌, ◌/◌, ◌%◌, ◌<◌, ◌≤◌, length};
ghost use Rattle.std.proofs.Common.{lit≤};
ghost use Rattle.memory.specs.Buffers.{Rebit, bit, bit_top, bits, byte_bits, held_len};

use crate::cell::Cell;
use crate::limits::{MAX_CELLS, held_len};

/// How many bits a byte has.
const BYTE_BITS: usize = 8;

/// A cell of one bit: cell j of a buffer is bit j mod 8 of byte j div 8, bit 0 being the lowest.
#[derive(Clone, Copy)]
pub struct Bit;

#[tactic(auto, using(crate::proofs::Packing::bits_length, crate::proofs::Packing::in_byte, crate::proofs::Packing::bits_at, crate::proofs::Packing::bits_set))]
impl Cell for Bit {
    type Unit = u8;

    const TOP: u16 = 1;

    ghost TOP = { bit_top };

    ghost cells = { bits };

    ghost ranged = { (lit≤ tt, lit≤ tt) };

    // Bytes past the limit are left out first, so that the product cannot overflow.
    fn count(buffer: &[u8]) -> usize {
        held_len(buffer.len().min(MAX_CELLS) * BYTE_BITS)
    }

    fn get(buffer: &[u8], j: usize) -> u16 {
        bit_of(buffer[j / BYTE_BITS], j % BYTE_BITS)
    }

    fn put(buffer: &mut [u8], j: usize, v: u16) {
        let at = j / BYTE_BITS;
        buffer[at] = with_bit(buffer[at], j % BYTE_BITS, v);
    }
}

// Bit k of a byte.
fn bit_of(byte: u8, k: usize) -> u16
    requires { k < byte_bits }
    ensures { result ≡ bit k byte }
{
    u16::from((byte >> k) % 2)
}

// The byte with bit k replaced by v.
fn with_bit(byte: u8, k: usize, v: u16) -> u8
    requires { (k < byte_bits) × (v ≤ bit_top) }
    ensures { Rebit byte k v result }
{
    let mask = 1 << k;
    if v == 0 { byte & !mask } else { byte | mask }
}
