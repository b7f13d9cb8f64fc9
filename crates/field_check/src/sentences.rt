//! A broken law in words.
use small_field::Broken;
use std::fmt;

/// What is broken, without a stop at the end.
#[derive(Drop)]
pub(crate) struct Sentence(pub(crate) Broken);

impl fmt::Display for Sentence {
    fn fmt<W: fmt::Write>(&self, f: &mut fmt::Formatter<W>) -> fmt::Result {
        match self.0 {
            Broken::Order => write!(f, "the order is not from 2 to 32768"),
            Broken::NegativeNoCode(a) => write!(f, "-{a} is no code"),
            Broken::SumWithZero(a) => write!(f, "{a} + 0 is not {a}"),
            Broken::SumWithNegative(a) => write!(f, "{a} + (-{a}) is not 0"),
            Broken::ProductWithOne(a) => write!(f, "{a} * 1 is not {a}"),
            Broken::ProductWithZero(a) => write!(f, "0 * {a} is not 0"),
            Broken::NoInverse(a) => write!(f, "no code times {a} is 1"),
            Broken::SumNoCode(a, b) => write!(f, "{a} + {b} is no code"),
            Broken::ProductNoCode(a, b) => write!(f, "{a} * {b} is no code"),
            Broken::SumTurned(a, b) => write!(f, "{a} + {b} is not {b} + {a}"),
            Broken::ProductTurned(a, b) => write!(f, "{a} * {b} is not {b} * {a}"),
            Broken::SumRegrouped(a, b, c) => {
                write!(f, "({a} + {b}) + {c} is not {a} + ({b} + {c})")
            }
            Broken::ProductRegrouped(a, b, c) => {
                write!(f, "({a} * {b}) * {c} is not {a} * ({b} * {c})")
            }
            Broken::Distribution(a, b, c) => {
                write!(f, "{a} * ({b} + {c}) is not {a} * {b} + {a} * {c}")
            }
        }
    }
}
