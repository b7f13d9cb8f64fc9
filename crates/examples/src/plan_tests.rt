//! Tests of plans at the edges of what is accepted, and of encoding.
use fault::{Fault, Ground, Layer};
use field::{Bits, Bytes, Clock, Field};
use plan::{EncodeFault, MODULUS_CODES, MOST_POSITIONS, MOST_TOTAL, Plan, PlanFault};
use std::alloc::{AllocError, Global};
use std::process::Abort;
use std::test::Fail;

// What a buffer holds before it is encoded into: no code of the field of bits.
const BEFORE: u16 = 9;

// The moduli as they are handed in: each is written up to its leading code, and zeros follow up to nine.
fn handed_in(heap: Global, moduli: &[&[u16]]) -> Result<Vec<u16>, AllocError> {
    let mut codes = Vec::new(heap);
    for modulus in moduli {
        for code in modulus
            .iter()
            .chain(&[0; MODULUS_CODES])
            .take(MODULUS_CODES)
        {
            codes.push(*code)?;
        }
    }
    Ok(codes)
}

// Adds the modulus z^power + constant. A place is a power, so that the loop counts what it compares.
fn push_modulus(codes: &mut Vec<u16>, power: usize, constant: u16) -> Result<(), AllocError> {
    codes.push(constant)?;
    for place in 1..MODULUS_CODES {
        codes.push(u16::from(place == power))?;
    }
    Ok(())
}

// The moduli z^power, z^power + 1, .., no two of which share a factor in the clock field.
fn powers_plus(heap: Global, power: usize, count: u16) -> Result<Vec<u16>, AllocError> {
    let mut codes = Vec::new(heap);
    for constant in 0..count {
        push_modulus(&mut codes, power, constant)?;
    }
    Ok(codes)
}

fn accepts<F: Field>(rt: &impl Abort, carriers: usize, codes: &[u16]) {
    assert_eq!(rt; Plan::<F>::new(carriers, codes).err(), None);
}

fn refuses<F: Field>(rt: &impl Abort, carriers: usize, codes: &[u16], fault: PlanFault) {
    assert_eq!(rt; Plan::<F>::new(carriers, codes).err(), Some(fault));
}

#[test]
fn from_two_to_twenty_four_positions(rt: HostRuntime) -> Result<(), Fail> {
    let most = powers_plus(rt.alloc(), 1, 24)?;
    let plan = Plan::<Clock>::new(23, &most)?;
    assert_eq!(rt; plan.positions(), MOST_POSITIONS);
    assert_eq!(rt; plan.message_length(), 23);
    refuses::<Clock>(&rt, 23, &powers_plus(rt.alloc(), 1, 25)?, PlanFault::Shape);
    accepts::<Clock>(&rt, 1, &powers_plus(rt.alloc(), 1, 2)?);
    refuses::<Clock>(&rt, 1, &powers_plus(rt.alloc(), 1, 1)?, PlanFault::Shape);
    refuses::<Clock>(&rt, 1, &[], PlanFault::Shape);
    Ok(())
}

#[test]
fn carriers_and_whole_groups(rt: HostRuntime) -> Result<(), Fail> {
    let mut codes = powers_plus(rt.alloc(), 1, 3)?;
    accepts::<Clock>(&rt, 1, &codes);
    accepts::<Clock>(&rt, 2, &codes);
    refuses::<Clock>(&rt, 0, &codes, PlanFault::Shape);
    refuses::<Clock>(&rt, 3, &codes, PlanFault::Shape);
    codes.push(0)?;
    refuses::<Clock>(&rt, 2, &codes, PlanFault::Shape);
    codes.truncate(26);
    refuses::<Clock>(&rt, 2, &codes, PlanFault::Shape);
    Ok(())
}

#[test]
fn total_degree_at_most_sixty_four(rt: HostRuntime) -> Result<(), Fail> {
    let mut codes = powers_plus(rt.alloc(), 8, 8)?;
    let plan = Plan::<Clock>::new(1, &codes)?;
    assert_eq!(rt; plan.word_length(), MOST_TOTAL);
    assert_eq!(rt; plan.message_length(), 8);
    // z is one degree too many, which comes before the factor that it shares with z^8
    push_modulus(&mut codes, 1, 0)?;
    refuses::<Clock>(&rt, 1, &codes, PlanFault::TotalDegree);
    // the constant 2 is no modulus, which comes before the degrees
    push_modulus(&mut codes, 0, 2)?;
    refuses::<Clock>(&rt, 1, &codes, PlanFault::Modulus(9));
    Ok(())
}

// z^8 + 3 has no root in the clock field, so that it can stand at any place among z, z + 1, ..
#[test]
fn degree_eight_at_each_position(rt: HostRuntime) -> Result<(), Fail> {
    // By number, which is the constant of a modulus too.
    for position in 0..24u16 {
        let mut codes = Vec::new(rt.alloc());
        for i in 0..24u16 {
            if i == position {
                push_modulus(&mut codes, 8, 3)?;
            } else {
                push_modulus(&mut codes, 1, i)?;
            }
        }
        let plan = Plan::<Clock>::new(1, &codes)?;
        assert_eq!(rt; plan.degree(usize::from(position)), 8);
        assert_eq!(rt; plan.start(usize::from(position)), usize::from(position));
        assert_eq!(rt; plan.word_length(), 31);
    }
    Ok(())
}

#[test]
fn moduli_that_are_none(rt: HostRuntime) -> Result<(), Fail> {
    let heap = rt.alloc();
    let first = PlanFault::Modulus(0);
    let second = PlanFault::Modulus(1);
    // a number that is no code: the order itself
    refuses::<Bits>(&rt, 1, &handed_in(heap, &[&[0, 1], &[2, 1]])?, second);
    refuses::<Bytes>(&rt, 1, &handed_in(heap, &[&[256, 1], &[0, 1]])?, first);
    refuses::<Clock>(&rt, 1, &handed_in(heap, &[&[0, 1], &[257, 1]])?, second);
    accepts::<Clock>(&rt, 1, &handed_in(heap, &[&[0, 1], &[256, 1]])?);
    // a leading code other than 1
    refuses::<Clock>(&rt, 1, &handed_in(heap, &[&[1, 2], &[0, 1]])?, first);
    refuses::<Bytes>(
        &rt,
        1,
        &handed_in(heap, &[&[0, 1], &[0, 0, 0, 0, 0, 0, 0, 0, 2]])?,
        second,
    );
    // constants
    refuses::<Bits>(&rt, 1, &handed_in(heap, &[&[0, 1], &[1]])?, second);
    refuses::<Bits>(&rt, 1, &handed_in(heap, &[&[0], &[0, 1]])?, first);
    // the first of two is named, and the shape comes before both
    let two = handed_in(heap, &[&[0, 1], &[1], &[2, 1]])?;
    refuses::<Bits>(&rt, 1, &two, second);
    refuses::<Bits>(&rt, 3, &two, PlanFault::Shape);
    Ok(())
}

#[test]
fn factors_that_are_shared(rt: HostRuntime) -> Result<(), Fail> {
    let heap = rt.alloc();
    // z + 1 beside z^2 + 1
    let beside = handed_in(heap, &[&[1, 1], &[1, 0, 1]])?;
    refuses::<Bits>(&rt, 1, &beside, PlanFault::SharedFactor(0, 1));
    refuses::<Bytes>(&rt, 1, &beside, PlanFault::SharedFactor(0, 1));
    accepts::<Clock>(&rt, 1, &beside);
    // z, z + 1, z^2 + 1, z^2 + z: the first modulus has its clash last
    refuses::<Bits>(
        &rt,
        1,
        &handed_in(heap, &[&[0, 1], &[1, 1], &[1, 0, 1], &[0, 1, 1]])?,
        PlanFault::SharedFactor(0, 3),
    );
    // z^2 + z + 1, z, z^2, z^3: every pair but those of the first modulus
    refuses::<Bits>(
        &rt,
        1,
        &handed_in(heap, &[&[1, 1, 1], &[0, 1], &[0, 0, 1], &[0, 0, 0, 1]])?,
        PlanFault::SharedFactor(1, 2),
    );
    Ok(())
}

// The plan of z, z + 1, z^2 + z + 1 and z^3 + z + 1 over bits, written out as the other moduli of these tests.
fn bit_plan(heap: Global) -> Result<Plan<Bits>, Fail> {
    let codes = handed_in(heap, &[&[0, 1], &[1, 1], &[1, 1, 1], &[1, 1, 0, 1]])?;
    Ok(Plan::<Bits>::new(2, &codes)?)
}

#[test]
fn words(rt: HostRuntime) -> Result<(), Fail> {
    let plan = bit_plan(rt.alloc())?;
    let mut word = [BEFORE; 7];
    assert!(rt; plan.encode(&[1, 1], &mut word).is_ok());
    assert_eq!(rt; word, [1, 0, 1, 1, 1, 1, 0]);
    let byte_codes = powers_plus(rt.alloc(), 1, 4)?;
    let byte_plan = Plan::<Bytes>::new(2, &byte_codes)?;
    let mut values = [BEFORE; 4];
    assert!(rt; byte_plan.encode(&[1, 2], &mut values).is_ok());
    assert_eq!(rt; values, [1, 3, 5, 7]);
    Ok(())
}

// Encoding is refused for this fault, and the buffer is left as it was.
fn encode_refuses(
    rt: &impl Abort,
    plan: &Plan<Bits>,
    message: &[u16],
    buffer: &mut [u16],
    fault: EncodeFault,
) {
    assert_eq!(rt; plan.encode(message, buffer).err(), Some(fault));
    assert!(rt; buffer.iter().all(|code| *code == BEFORE));
}

#[test]
fn encodings_that_are_refused(rt: HostRuntime) -> Result<(), Fail> {
    let plan = bit_plan(rt.alloc())?;
    let message_length = EncodeFault::MessageLength(2);
    let word_length = EncodeFault::WordLength(7);
    encode_refuses(&rt, &plan, &[1], &mut [BEFORE; 7], message_length);
    encode_refuses(&rt, &plan, &[1, 1, 1], &mut [BEFORE; 7], message_length);
    encode_refuses(&rt, &plan, &[1, 1], &mut [BEFORE; 6], word_length);
    encode_refuses(&rt, &plan, &[1, 1], &mut [BEFORE; 8], word_length);
    encode_refuses(
        &rt,
        &plan,
        &[1, 2],
        &mut [BEFORE; 7],
        EncodeFault::NoCode(1),
    );
    encode_refuses(
        &rt,
        &plan,
        &[2, 2],
        &mut [BEFORE; 7],
        EncodeFault::NoCode(0),
    );
    // the message's length comes before the buffer's, and both before the codes
    encode_refuses(&rt, &plan, &[2], &mut [BEFORE; 6], message_length);
    encode_refuses(&rt, &plan, &[2, 2], &mut [BEFORE; 6], word_length);
    Ok(())
}

// A ground of the plan layer.
fn plan_ground(number: u8, first: usize, second: usize) -> Ground {
    Ground {
        number,
        layer: Layer::Plan,
        first,
        second,
    }
}

#[test]
fn grounds(rt: HostRuntime) {
    assert_eq!(rt; PlanFault::Shape.ground(), plan_ground(4, 0, 0));
    assert_eq!(rt; PlanFault::Modulus(3).ground(), plan_ground(5, 3, 0));
    assert_eq!(rt; PlanFault::TotalDegree.ground(), plan_ground(6, 0, 0));
    assert_eq!(rt;
        PlanFault::SharedFactor(1, 3).ground(),
        plan_ground(7, 1, 3)
    );
    assert_eq!(rt;
        EncodeFault::MessageLength(2).ground(),
        plan_ground(16, 0, 2)
    );
    assert_eq!(rt; EncodeFault::WordLength(7).ground(), plan_ground(16, 0, 7));
    assert_eq!(rt; EncodeFault::NoCode(1).ground(), plan_ground(17, 0, 1));
}
