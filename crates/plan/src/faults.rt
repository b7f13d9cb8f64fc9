//! Why a plan or an encoding is refused.
ghost use Rattle.std.specs.Prelude.{Some};
ghost use Rattle.plan.specs.Refusals.{encode_ground, plan_ground};
ghost use Rattle.plan.specs.Sentences.{encode_sentence, plan_sentence};

use crate::limits::{MODULUS_CODES, MOST_TOTAL};
use fault::{Fault, Ground, Layer, ShortText};
use std::error::Error;
use std::fmt;

/// Why k and the moduli make no plan.
#[derive(Clone, Copy, PartialEq, Eq, Debug)]
pub enum PlanFault {
    /// The codes are not whole groups of nine, or the number of moduli or k is out of its range.
    Shape,
    /// The first modulus with a number that is no code, a leading code other than 1, or degree below 1.
    Modulus(usize),
    /// The degrees sum to more than 64.
    TotalDegree,
    /// The first two moduli that share a factor.
    SharedFactor(usize, usize),
}

impl Fault for PlanFault {
    ghost meaning = { plan_ground };

    ghost saying = { plan_sentence };

    fn ground(&self) -> Ground {
        let (number, first, second) = match self {
            PlanFault::Shape => (4, 0, 0),
            PlanFault::Modulus(i) => (5, *i, 0),
            PlanFault::TotalDegree => (6, 0, 0),
            PlanFault::SharedFactor(i, j) => (7, *i, *j),
        };
        Ground {
            number,
            layer: Layer::Plan,
            first,
            second,
        }
    }

    fn sentence(&self) -> ShortText {
        match self {
            PlanFault::Shape => ShortText::new("the codes are not whole groups of ")
                .number(MODULUS_CODES)
                .text(", or k or the number of moduli is out of its range"),
            PlanFault::Modulus(i) => ShortText::new("modulus ").number(*i).text(
                " has a number that is no code, a leading code other than 1, or degree 0",
            ),
            PlanFault::TotalDegree => ShortText::new(
                "the degrees of the moduli sum to more than ",
            ).number(MOST_TOTAL),
            PlanFault::SharedFactor(i, j) => ShortText::new("modulus ")
                .number(*i)
                .text(" and modulus ")
                .number(*j)
                .text(" share a factor"),
        }
    }
}

impl fmt::Display for PlanFault {
    ghost output = { λ fault. Some (plan_sentence fault) };

    fn fmt<W: fmt::Write>(&self, f: &mut fmt::Formatter<W>) -> fmt::Result {
        f.write_str(self.sentence().as_str())
    }
}

impl Error for PlanFault {}

/// Why a message is not encoded.
#[derive(Clone, Copy, PartialEq, Eq, Debug)]
pub enum EncodeFault {
    /// The message has not this length.
    MessageLength(usize),
    /// The buffer has not this length.
    WordLength(usize),
    /// The first number of the message that is no code.
    NoCode(usize),
}

impl Fault for EncodeFault {
    ghost meaning = { encode_ground };

    ghost saying = { encode_sentence };

    fn ground(&self) -> Ground {
        let (number, second) = match self {
            EncodeFault::MessageLength(right) => (16, *right),
            EncodeFault::WordLength(right) => (16, *right),
            EncodeFault::NoCode(i) => (17, *i),
        };
        Ground {
            number,
            layer: Layer::Plan,
            first: 0,
            second,
        }
    }

    fn sentence(&self) -> ShortText {
        match self {
            EncodeFault::MessageLength(right) => ShortText::new("a message under this plan has ")
                .number(*right)
                .text(" codes"),
            EncodeFault::WordLength(right) => ShortText::new("a word under this plan has ")
                .number(*right)
                .text(" codes"),
            EncodeFault::NoCode(i) => ShortText::new("number ")
                .number(*i)
                .text(" of the message is no code of the field"),
        }
    }
}

impl fmt::Display for EncodeFault {
    ghost output = { λ fault. Some (encode_sentence fault) };

    fn fmt<W: fmt::Write>(&self, f: &mut fmt::Formatter<W>) -> fmt::Result {
        f.write_str(self.sentence().as_str())
    }
}

impl Error for EncodeFault {}
