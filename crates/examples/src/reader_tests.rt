//! Tests of the reader on the plans of the worked examples. The program `trials` draws many more.
use crate::moduli::FOUR_OVER_BITS;
use fault::{Fault, Ground, Layer};
use field::{Bits, Bytes, Field};
use plan::{MOST_POSITIONS, MOST_TOTAL, Plan};
use reader::{Arrived, ArrivedWord, received};
use std::array;
use std::process::Abort;
use std::test::Fail;

// z, z + 1, z + 2, z + 3 over bytes.
const FOUR_OVER_BYTES: [u16; 36] = [
    0, 1, 0, 0, 0, 0, 0, 0, 0, 1, 1, 0, 0, 0, 0, 0, 0, 0, 2, 1, 0, 0, 0, 0, 0, 0, 0, 3, 1, 0, 0, 0,
    0, 0, 0, 0,
];

// z^2 + z + 1 and z^2 + z over bits.
const TWO_OVER_BITS: [u16; 18] = [1, 1, 1, 0, 0, 0, 0, 0, 0, 0, 1, 1, 0, 0, 0, 0, 0, 0];

// Which positions are present: the first as they are told, and no other. `received` takes a flag for each
// that a plan can have.
fn presence(first: &[bool]) -> [bool; MOST_POSITIONS] {
    array::from_fn(|i| first.get(i).copied().unwrap_or(false))
}

// Reads the codes at the positions that are present, and compares the message and its margin. What has arrived is
// put together in each function that needs it, since it lends residues that live no longer.
fn reads<F: Field>(
    rt: &impl Abort,
    plan: &Plan<F>,
    codes: &[u16],
    present: &[bool],
    message: [u16; 2],
    margin: i32,
) -> Result<(), Fail> {
    let residues = received(plan, codes, &presence(present));
    let arrived = Arrived {
        plan,
        residues: &residues,
    };
    let reading = arrived.read()?;
    assert_eq!(rt; reading.codes(), message.as_slice());
    assert_eq!(rt; reading.margin, margin);
    Ok(())
}

fn refuses<F: Field>(
    rt: &impl Abort,
    plan: &Plan<F>,
    codes: &[u16],
    present: &[bool],
    number: u8,
    second: usize,
) {
    let residues = received(plan, codes, &presence(present));
    let arrived = Arrived {
        plan,
        residues: &residues,
    };
    assert_eq!(rt;
        arrived.read().err().map(|fault| fault.ground()),
        Some(Ground {
            number,
            layer: Layer::Reader,
            first: 0,
            second,
        })
    );
}

#[test]
fn words_over_bits(rt: HostRuntime) -> Result<(), Fail> {
    let plan = Plan::<Bits>::new(2, &FOUR_OVER_BITS)?;
    reads(
        &rt,
        &plan,
        &[1, 0, 1, 1, 1, 1, 0],
        &[true, true, true, true],
        [1, 1],
        5,
    )?;
    reads(&rt, &plan, &[1, 0], &[true, true], [1, 1], 0)?;
    reads(&rt, &plan, &[1, 0, 0, 0], &[true, true, true], [0, 0], 0)?;
    refuses(&rt, &plan, &[0, 0], &[false, true], 18, 1);
    refuses(
        &rt,
        &plan,
        &[1, 0, 1, 1, 0, 0, 0],
        &[true, true, true, true],
        19,
        0,
    );
    let plan = Plan::<Bits>::new(1, &TWO_OVER_BITS)?;
    refuses(&rt, &plan, &[0, 0, 0, 1], &[true, true], 19, 0);
    let residues = received(&plan, &[0, 0, 0, 1], &presence(&[true, true]));
    let arrived = Arrived {
        plan: &plan,
        residues: &residues,
    };
    assert_eq!(rt; arrived.measure(&[0, 0]), -2);
    Ok(())
}

#[test]
fn words_over_bytes(rt: HostRuntime) -> Result<(), Fail> {
    let plan = Plan::<Bytes>::new(2, &FOUR_OVER_BYTES)?;
    reads(
        &rt,
        &plan,
        &[1, 3, 5, 9],
        &[true, true, true, true],
        [1, 2],
        0,
    )?;
    // a number that is no code is wrong for every message
    reads(
        &rt,
        &plan,
        &[1, 3, 5, 256],
        &[true, true, true, true],
        [1, 2],
        0,
    )?;
    refuses(&rt, &plan, &[1, 3, 0, 0], &[true, true, true, true], 19, 0);
    refuses(
        &rt,
        &plan,
        &[1, 300, 400, 7],
        &[true, true, true, true],
        19,
        0,
    );
    Ok(())
}

#[test]
fn a_word_by_its_flags(rt: HostRuntime) -> Result<(), Fail> {
    let plan = Plan::<Bits>::new(2, &FOUR_OVER_BITS)?;
    let mut word = [0; MOST_TOTAL];
    word[..4].copy_from_slice(&[1, 0, 1, 1]);
    let present = presence(&[true, true, true]);
    let arrived = ArrivedWord {
        plan: &plan,
        word: &word,
        present: &present,
    };
    assert_eq!(rt; arrived.missing_degrees(), 3);
    assert_eq!(rt; arrived.wrong_degrees(&[1, 1]), 0);
    assert_eq!(rt; arrived.measure(&[1, 1]), 2);
    assert_eq!(rt; arrived.wrong_degrees(&[0, 0]), 3);
    assert_eq!(rt; arrived.measure(&[0, 0]), -4);
    Ok(())
}
