//! Tests of the fields at the edges of each operation. The program `vectors` compares many values.
use field::{Bits, Bytes, Clock, Field};
use std::process::Abort;

// Every operation answers 0 where a number is no code.
fn answers_zero_outside<F: Field>(rt: &impl Abort, outside: u16) {
    assert_eq!(rt; F::sum(outside, 1), 0);
    assert_eq!(rt; F::sum(1, outside), 0);
    assert_eq!(rt; F::product(outside, 1), 0);
    assert_eq!(rt; F::product(1, outside), 0);
    assert_eq!(rt; F::negative(outside), 0);
    assert_eq!(rt; F::inverse(outside), 0);
}

#[test]
fn numbers_that_are_no_codes_answer_zero(rt: HostRuntime) {
    answers_zero_outside::<Bits>(&rt, Bits::ORDER);
    answers_zero_outside::<Bits>(&rt, u16::MAX);
    answers_zero_outside::<Bytes>(&rt, Bytes::ORDER);
    answers_zero_outside::<Bytes>(&rt, u16::MAX);
    answers_zero_outside::<Clock>(&rt, Clock::ORDER);
    answers_zero_outside::<Clock>(&rt, u16::MAX);
}

#[test]
fn zero_has_no_inverse(rt: HostRuntime) {
    assert_eq!(rt; Bits::inverse(0), 0);
    assert_eq!(rt; Bytes::inverse(0), 0);
    assert_eq!(rt; Clock::inverse(0), 0);
}

#[test]
fn sums_and_negatives(rt: HostRuntime) {
    assert_eq!(rt; Bits::sum(1, 1), 0);
    assert_eq!(rt; Bytes::sum(0x0f, 0xff), 0xf0);
    assert_eq!(rt; Clock::sum(256, 256), 255);
    assert_eq!(rt; Bits::negative(1), 1);
    assert_eq!(rt; Bytes::negative(77), 77);
    assert_eq!(rt; Clock::negative(1), 256);
    assert_eq!(rt; Clock::negative(0), 0);
}
