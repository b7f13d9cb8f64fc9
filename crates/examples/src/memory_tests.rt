//! Memories at the edges of their buffers, and layers on them.
ghost use Rattle.std.specs.Prelude.{◌≡◌};
ghost use Rattle.memory.specs.Meaning.{Sets, accepts, max_top, replaced};
ghost use Rattle.memory.specs.Buffers.{bit_top, bits, byte_top, held};

use fault::Fault;
use laboratory::Mirrored;
use memory::{Bit, ByteCells, Memory, PackedCells, Returned, WordCells, set_cell};
use spread::Spread;
use std::process::Abort;
use std::test::Fail;

// What one memory over a lent buffer promises, read for bytes, for words and for bits. Each contract is
// proved from the generic one.
fn set_byte(buffer: &mut [u8], j: usize, v: u16) -> bool
    ensures answer { result ≡ accepts (held buffer.old) byte_top j v }
    ensures after { buffer.new ≡ replaced result buffer.old j v }
{
    set_cell::<u8>(buffer, j, v)
}

fn set_word(buffer: &mut [u16], j: usize, v: u16) -> bool
    ensures answer { result ≡ accepts (held buffer.old) max_top j v }
    ensures after { buffer.new ≡ replaced result buffer.old j v }
{
    set_cell::<u16>(buffer, j, v)
}

fn set_bit(buffer: &mut [u8], j: usize, v: u16) -> bool
    ensures answer { result ≡ accepts (held (bits buffer.old)) bit_top j v }
    ensures after { bits buffer.new ≡ replaced result (bits buffer.old) j v }
{
    set_cell::<Bit>(buffer, j, v)
}

// The cells of a memory of bytes are the buffer's bytes up to the limit, and so for words and bits; its lender stays.
fn set_in_bytes(memory: &mut ByteCells<'_>, j: usize, v: u16) -> bool
    ensures sets { Sets (held memory.old.buffer.now) byte_top j v result (held memory.new.buffer.now) byte_top }
    ensures buffer { memory.new.buffer.now ≡ replaced result memory.old.buffer.now j v }
    ensures lender { memory.new.buffer.ghost_name ≡ memory.old.buffer.ghost_name }
{
    memory.set(j, v)
}

fn set_in_words(memory: &mut WordCells<'_>, j: usize, v: u16) -> bool
    ensures sets { Sets (held memory.old.buffer.now) max_top j v result (held memory.new.buffer.now) max_top }
    ensures buffer { memory.new.buffer.now ≡ replaced result memory.old.buffer.now j v }
    ensures lender { memory.new.buffer.ghost_name ≡ memory.old.buffer.ghost_name }
{
    memory.set(j, v)
}

fn set_in_bits(memory: &mut PackedCells<'_>, j: usize, v: u16) -> bool
    ensures sets { Sets (held (bits memory.old.buffer.now)) bit_top j v result (held (bits memory.new.buffer.now)) bit_top }
    ensures buffer { bits memory.new.buffer.now ≡ replaced result (bits memory.old.buffer.now) j v }
    ensures lender { memory.new.buffer.ghost_name ≡ memory.old.buffer.ghost_name }
{
    memory.set(j, v)
}

#[test]
fn one_cell_of_a_lent_buffer(rt: HostRuntime) -> Result<(), Fail> {
    let mut bytes = [1, 2, 3];
    assert_eq!(rt; set_byte(&mut bytes, 1, 255), true);
    assert_eq!(rt; set_byte(&mut bytes, 2, 256), false);
    assert_eq!(rt; set_in_bytes(&mut ByteCells::new(&mut bytes), 0, 7), true);
    assert_eq!(rt; bytes, [7, 255, 3]);
    let mut words = [1, 2, 3];
    assert_eq!(rt; set_word(&mut words, 1, 65_535), true);
    assert_eq!(rt; set_word(&mut words, 3, 0), false);
    assert_eq!(rt; set_in_words(&mut WordCells::new(&mut words), 0, 7), true);
    assert_eq!(rt; words, [7, 65_535, 3]);
    let mut bytes = [0, 255];
    assert_eq!(rt; set_bit(&mut bytes, 3, 1), true);
    assert_eq!(rt; set_bit(&mut bytes, 3, 2), false);
    assert_eq!(rt; set_in_bits(&mut PackedCells::new(&mut bytes), 15, 0), true);
    assert_eq!(rt; bytes, [8, 127]);
    Ok(())
}

// Sets and gets the first and the last cell, and tries one past the end and a number above the top.
fn edges<M: Memory>(rt: &impl Abort, memory: &mut M, len: usize, top: u16) -> Result<(), Fail> {
    assert_eq!(rt; memory.len(), len);
    assert_eq!(rt; memory.top_value(), top);
    assert_eq!(rt; memory.get(len), None);
    assert_eq!(rt; memory.set(len, 0), false);
    if len == 0 {
        return Ok(());
    }
    for j in [0, len - 1] {
        assert_eq!(rt; memory.set(j, top), true);
        assert_eq!(rt; memory.get(j), Some(top));
        if top < u16::MAX {
            assert_eq!(rt; memory.set(j, top + 1), false);
        }
        assert_eq!(rt; memory.get(j), Some(top));
        assert_eq!(rt; memory.set(j, 0), true);
        assert_eq!(rt; memory.get(j), Some(0));
    }
    Ok(())
}

#[test]
fn words_and_bytes_past_the_limit(rt: HostRuntime) -> Result<(), Fail> {
    for (room, len) in [
        (0, 0),
        (1, 1),
        (65_535, 65_535),
        (65_536, 65_535),
        (70_000, 65_535),
    ] {
        let mut words = vec![in rt.alloc(); 7; room]?;
        edges(&rt, &mut WordCells::new(words.as_mut_slice()), len, 65_535)?;
        assert_eq!(rt; words.get(len).copied(), (len < room).then_some(7));
        let mut bytes = vec![in rt.alloc(); 7; room]?;
        edges(&rt, &mut ByteCells::new(bytes.as_mut_slice()), len, 255)?;
        assert_eq!(rt; bytes.get(len).copied(), (len < room).then_some(7));
        edges(&rt, &mut Mirrored::new(rt.alloc(), room)?, len, 65_535)?;
    }
    Ok(())
}

#[test]
fn packed_past_the_limit(rt: HostRuntime) -> Result<(), Fail> {
    for (room, len) in [(0, 0), (1, 8), (8_191, 65_528), (8_192, 65_535)] {
        let mut bytes = vec![in rt.alloc(); 255; room]?;
        edges(&rt, &mut PackedCells::new(bytes.as_mut_slice()), len, 1)?;
        // the last cell is bit 6 of byte 8,191 and was left at 0; bit 7 is no cell
        if room == 8_192 {
            assert_eq!(rt; bytes.get(8_191).copied(), Some(0b1011_1111));
        }
    }
    Ok(())
}

// What becomes of a layer of this depth over so many cells: its number of cells, or the line of the refusal.
fn spread_of(rt: &(impl Abort + AllocGlobal), len: usize, depth: usize) -> Result<String, Fail> {
    let below = Mirrored::new(rt.alloc(), len)?;
    match Spread::new(below, depth) {
        Ok(layer) => Ok(format!(in rt.alloc(); "{}", layer.len())?),
        Err(Returned { memory, fault }) => {
            assert_eq!(rt; memory.len(), len);
            Ok(fault.ground().to_string(rt.alloc())?)
        }
    }
}

#[test]
fn depths(rt: HostRuntime) -> Result<(), Fail> {
    let refused = "no 8 M 0 0";
    for (len, depth, answer) in [
        (8, 2, "8"),
        (8, 8, "8"),
        (8, 3, refused),
        (8, 16, refused),
        (8, 0, refused),
        (1, 0, refused),
        (0, 0, refused),
        (0, 1, "0"),
        (0, 7, "0"),
        (65_535, 257, "65535"),
    ] {
        assert_eq!(rt; spread_of(&rt, len, depth)?.as_str(), answer);
    }
    Ok(())
}

#[test]
fn layers_on_layers(rt: HostRuntime) -> Result<(), Fail> {
    let mut words = [0; 8];
    let Ok(mut layer) = Spread::new(WordCells::new(&mut words), 2) else {
        return Err(Fail::new("depth 2 was refused"));
    };
    assert_eq!(rt; layer.place_below(3), Some(5));
    assert_eq!(rt; layer.place_below(8), None);
    assert_eq!(rt; layer.set(3, 9), true);
    assert_eq!(rt; layer.into_below().get(5), Some(9));
    assert_eq!(rt; words, [0, 0, 0, 0, 0, 9, 0, 0]);

    // a layer of depth 3 over one of depth 4 numbers twelve cells as they were
    let mut words = [0; 12];
    let Ok(inner) = Spread::new(WordCells::new(&mut words), 4) else {
        return Err(Fail::new("depth 4 was refused"));
    };
    let Ok(mut outer) = Spread::new(inner, 3) else {
        return Err(Fail::new("depth 3 was refused"));
    };
    for j in 0..12u16 {
        assert_eq!(rt; outer.set(usize::from(j), j), true);
    }
    assert_eq!(rt; outer.into_below().into_below().get(7), Some(7));
    assert_eq!(rt; words, [0, 1, 2, 3, 4, 5, 6, 7, 8, 9, 10, 11]);
    Ok(())
}
