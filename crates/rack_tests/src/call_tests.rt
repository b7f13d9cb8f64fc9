//! Tests of the six calls, on the plan of four moduli over bits: a word has 7 codes and a message 2.
use examples::FOUR_OVER_BITS;
use fault::{Fault, Ground, Layer};
use field::{Bits, Clock, Field};
use memory::{ByteCells, Memory, PackedCells, Returned, WordCells};
use plan::Plan;
use rack::{Found, Rack, RackFault};
use std::process::Abort;
use std::test::Fail;

// The word of the message 1 1 under the plan, 1|0|1 1|1 1 0.
const WORD: [u16; 7] = [1, 0, 1, 1, 1, 1, 0];

// z and z + 1.
const TWO_OVER_CLOCK: [u16; 18] = [0, 1, 0, 0, 0, 0, 0, 0, 0, 1, 1, 0, 0, 0, 0, 0, 0, 0];

// What makes a rack is generic in its memory: where the type of a lent buffer is named, the borrow checker
// does not cover it.
fn rack_over<M: Memory + Drop>(memory: M, slots: usize) -> Result<Rack<Bits, M>, Fail> {
    let plan = Plan::<Bits>::new(2, &FOUR_OVER_BITS)?;
    Rack::new(plan, memory, slots).map_err(|_| Fail::new("no rack"))
}

// Opens the slot, and puts the word of 1 1 there.
fn fill<M: Memory>(rack: &mut Rack<Bits, M>, channel: usize, slot: usize) -> Result<(), Fail> {
    rack.open(channel, slot)?;
    rack.put(channel, slot, 0, &WORD[0..1])?;
    rack.put(channel, slot, 1, &WORD[1..2])?;
    rack.put(channel, slot, 2, &WORD[2..4])?;
    rack.put(channel, slot, 3, &WORD[4..7])?;
    Ok(())
}

// Reads 1 1, and compares its margin and e, which stand by themselves since each call would else write a `Found` out.
fn reads<M: Memory>(
    rt: &impl Abort,
    rack: &Rack<Bits, M>,
    channel: usize,
    slot: usize,
    margin: i32,
    wrong: usize,
) -> Result<(), Fail> {
    let mut buffer = [9, 9];
    let found = rack.read(channel, slot, &mut buffer)?;
    assert_eq!(rt; found, Found { margin, wrong });
    assert_eq!(rt; buffer, [1, 1]);
    Ok(())
}

// Compares the ground of a refused call. The reader's begin at 18.
fn refused<T: Drop>(
    rt: &impl Abort,
    res: Result<T, RackFault>,
    number: u8,
    first: usize,
    second: usize,
) {
    let layer = if number < 18 {
        Layer::Rack
    } else {
        Layer::Reader
    };
    assert_eq!(rt;
        res.err().map(|fault| fault.ground()),
        Some(Ground {
            number,
            layer,
            first,
            second,
        })
    );
}

// Grounds 10 to 14, with slot 1 of two. A refused call leaves what is there.
fn whose_slot<M: Memory>(rt: &impl Abort, rack: &mut Rack<Bits, M>) -> Result<(), Fail> {
    refused(rt, rack.open(2, 2), 10, 0, 0);
    refused(rt, rack.open(0, 2), 11, 2, 0);
    refused(rt, rack.put(0, 1, 0, &[1]), 12, 1, 0);
    fill(rack, 0, 1)?;
    refused(rt, rack.open(0, 1), 13, 1, 0);
    refused(rt, rack.open(1, 1), 13, 1, 0);
    refused(rt, rack.put(1, 1, 0, &[0]), 14, 1, 0);
    refused(rt, rack.strike(1, 1, 0), 14, 1, 0);
    refused(rt, rack.close(1, 1), 14, 1, 0);
    reads(rt, rack, 0, 1, 5, 0)?;
    rack.close(0, 1)?;
    refused(rt, rack.close(0, 1), 12, 1, 0);
    // it opens empty again
    rack.open(1, 1)?;
    assert_eq!(rt; rack.measure(1, 1, &[1, 1])?, -2);
    Ok(())
}

// Grounds 15 to 17, in slot 0. A refused call leaves what is there, and the buffer too.
fn what_is_given<M: Memory>(rt: &impl Abort, rack: &mut Rack<Bits, M>) -> Result<(), Fail> {
    fill(rack, 1, 0)?;
    refused(rt, rack.put(1, 0, 4, &[1]), 15, 0, 4);
    refused(rt, rack.strike(1, 0, 4), 15, 0, 4);
    refused(rt, rack.put(1, 0, 2, &[2]), 16, 0, 2);
    refused(rt, rack.measure(1, 0, &[1, 1, 1]), 16, 0, 2);
    refused(rt, rack.put(1, 0, 3, &[0, 2, 3]), 17, 0, 1);
    refused(rt, rack.measure(1, 0, &[0, 2]), 17, 0, 1);
    reads(rt, rack, 1, 0, 5, 0)?;
    let mut short = [9];
    refused(rt, rack.read(1, 0, &mut short), 16, 0, 2);
    assert_eq!(rt; short, [9]);
    Ok(())
}

// Grounds 18 and 19, in slot 0, which the call before has left open. The buffer stays as it was.
fn no_message<M: Memory>(rt: &impl Abort, rack: &mut Rack<Bits, M>) -> Result<(), Fail> {
    let mut buffer = [9, 9];
    rack.close(1, 0)?;
    rack.open(0, 0)?;
    rack.put(0, 0, 1, &[0])?;
    refused(rt, rack.read(0, 0, &mut buffer), 18, 0, 1);
    rack.put(0, 0, 0, &[1])?;
    rack.put(0, 0, 2, &[0, 1])?;
    refused(rt, rack.read(0, 0, &mut buffer), 19, 0, 0);
    assert_eq!(rt; buffer, [9, 9]);
    rack.strike(0, 0, 2)?;
    reads(rt, rack, 0, 0, 0, 0)
}

fn refusals_on<M: Memory + Drop>(rt: &impl Abort, memory: M) -> Result<(), Fail> {
    let mut rack = rack_over(memory, 2)?;
    whose_slot(rt, &mut rack)?;
    what_is_given(rt, &mut rack)?;
    no_message(rt, &mut rack)
}

#[test]
fn refusals(rt: HostRuntime) -> Result<(), Fail> {
    let mut words = [0; 14];
    refusals_on(&rt, WordCells::new(&mut words))?;
    // a word over bits needs no more than a bit to a cell, whatever it held before
    let mut bytes = [255; 2];
    refusals_on(&rt, PackedCells::new(&mut bytes))
}

// The memory that no rack is made over.
fn not_made<F: Field, M: Memory + Drop>(
    rt: &impl Abort,
    plan: Plan<F>,
    memory: M,
    slots: usize,
) -> Result<M, Fail> {
    let Err(Returned { memory, fault }) = Rack::new(plan, memory, slots) else {
        return Err(Fail::new("it fits"));
    };
    assert_eq!(rt;
        fault.ground(),
        Ground {
            number: 9,
            layer: Layer::Memory,
            first: 0,
            second: 0,
        }
    );
    Ok(memory)
}

// Makes a rack, and takes it apart again.
fn made<M: Memory + Drop>(memory: M, slots: usize) -> Result<M, Fail> {
    Ok(rack_over(memory, slots)?.into_memory())
}

#[test]
fn what_fits(rt: HostRuntime) -> Result<(), Fail> {
    let plan = Plan::<Bits>::new(2, &FOUR_OVER_BITS)?;
    let mut words = [5; 119];
    let memory = not_made(&rt, plan, WordCells::new(&mut words), 0)?;
    let memory = not_made(&rt, plan, memory, 17)?;
    let memory = made(memory, 16)?;
    assert_eq!(rt; memory.len(), 119);
    assert_eq!(rt; memory.get(118), Some(5));
    let mut words = [5; 13];
    let memory = not_made(&rt, plan, WordCells::new(&mut words), 2)?;
    assert_eq!(rt; made(memory, 1)?.get(12), Some(5));
    // the clock has 257 codes, and a byte 256 numbers
    let plan = Plan::<Clock>::new(1, &TWO_OVER_CLOCK)?;
    let mut bytes = [7; 2];
    let memory = not_made(&rt, plan, ByteCells::new(&mut bytes), 1)?;
    assert_eq!(rt; memory.get(1), Some(7));
    Ok(())
}

fn damage_on<M: Memory + Drop>(rt: &impl Abort, memory: M) -> Result<(), Fail> {
    let mut rack = rack_over(memory, 2)?;
    fill(&mut rack, 0, 1)?;
    // a cell of the third position, and no cell
    assert_eq!(rt; rack.overwrite_cell(10, 0), true);
    assert_eq!(rt; rack.overwrite_cell(14, 0), false);
    reads(rt, &rack, 0, 1, 1, 2)?;
    rack.put(0, 1, 2, &[1, 1])?;
    // 5 is no code of bits, so that the first position is wrong whatever the message
    assert_eq!(rt; rack.overwrite_cell(7, 5), true);
    reads(rt, &rack, 0, 1, 3, 1)?;
    for position in 1..4 {
        rack.strike(0, 1, position)?;
    }
    for message in [[0, 0], [0, 1], [1, 0], [1, 1]] {
        assert_eq!(rt; rack.measure(0, 1, &message)?, -3);
    }
    rack.put(0, 1, 0, &[1])?;
    assert_eq!(rt; rack.measure(0, 1, &[1, 1])?, -1);
    Ok(())
}

#[test]
fn damage(rt: HostRuntime) -> Result<(), Fail> {
    let mut words = [0; 14];
    damage_on(&rt, WordCells::new(&mut words))
}
