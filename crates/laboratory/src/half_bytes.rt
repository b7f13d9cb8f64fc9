//! Cells of four bits, two to a byte: a kind of cells is the shortest way to a memory of one's own over a lent buffer.
ghost use Rattle.std.proofs.Common.{lit≤};
ghost use Rattle.laboratory.specs.Halves.{half, half_top, halves, with_half};
ghost use Rattle.std.specs.Prelude.{◌≡◌, ◌<◌, ◌≤◌};

use memory::{Cell, MAX_CELLS};
#[cfg(test)]
use memory::{LentCells, Memory};

/// How many cells lie in a byte.
const HALVES: usize = 2;

/// The place value of the upper half of a byte: the lower half is a number below it.
const UPPER: u8 = 16;

/// A cell of four bits: cell j of a buffer is half j mod 2 of byte j div 2, the lower half being half 0.
#[derive(Clone, Copy)]
pub struct HalfByte;

#[tactic(auto, using(crate::proofs::Halving::halves_length, crate::proofs::Halving::in_byte, crate::proofs::Halving::halves_at, crate::proofs::Halving::halves_set))]
impl Cell for HalfByte {
    type Unit = u8;

    const TOP: u16 = 15;

    ghost TOP = { half_top };

    ghost cells = { halves };

    // Bytes past the limit are left out first, so that the product cannot overflow.
    fn count(buffer: &[u8]) -> usize {
        (buffer.len().min(MAX_CELLS) * HALVES).min(MAX_CELLS)
    }

    fn get(buffer: &[u8], j: usize) -> u16 {
        u16::from(half_of(buffer[j / HALVES], j % HALVES))
    }

    fn put(buffer: &mut [u8], j: usize, v: u16) {
        let at = j / HALVES;
        buffer[at] = with_half(buffer[at], j % HALVES, v as u8);
    }

    ghost ranged = { (lit≤ tt, lit≤ tt) };
}

// Half k of a byte.
fn half_of(byte: u8, k: usize) -> u8
    ensures value { result ≡ half k byte }
    ensures within { result ≤ half_top }
{
    if k == 0 { byte % UPPER } else { byte / UPPER }
}

// The byte with half k replaced by v.
fn with_half(byte: u8, k: usize, v: u8) -> u8
    requires { v ≤ half_top }
    ensures { result ≡ with_half byte k v }
{
    if k == 0 {
        byte - byte % UPPER + v
    } else {
        v * UPPER + byte % UPPER
    }
}

#[test]
fn four_cells_in_two_bytes(rt: HostRuntime) -> Result<(), std::test::Fail> {
    let mut bytes = [0x21, 0xF0];
    let mut cells = LentCells::<HalfByte>::new(&mut bytes);
    assert_eq!(rt; cells.len(), 4);
    assert_eq!(rt; cells.get(1), Some(2));
    assert_eq!(rt; cells.get(3), Some(15));
    assert_eq!(rt; cells.get(4), None);
    assert_eq!(rt; cells.set(2, 9), true);
    assert_eq!(rt; cells.set(0, 16), false);
    assert_eq!(rt; bytes, [0x21, 0xF9]);
    Ok(())
}
