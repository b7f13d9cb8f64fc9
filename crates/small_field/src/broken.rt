//! Why a set of operations is no field.

/// A law of fields that is broken, with the codes at which it is.
#[derive(Clone, Copy, PartialEq, Eq, Debug)]
pub enum Broken {
    /// The order is not from 2 to 32,768.
    Order,
    /// −a is no code.
    NegativeNoCode(u16),
    /// a + 0 is not a.
    SumWithZero(u16),
    /// a + (−a) is not 0.
    SumWithNegative(u16),
    /// a · 1 is not a.
    ProductWithOne(u16),
    /// 0 · a is not 0.
    ProductWithZero(u16),
    /// a is not 0, and no code times a is 1.
    NoInverse(u16),
    /// a + b is no code.
    SumNoCode(u16, u16),
    /// a · b is no code.
    ProductNoCode(u16, u16),
    /// a + b is not b + a.
    SumTurned(u16, u16),
    /// a · b is not b · a.
    ProductTurned(u16, u16),
    /// (a + b) + c is not a + (b + c).
    SumRegrouped(u16, u16, u16),
    /// (a · b) · c is not a · (b · c).
    ProductRegrouped(u16, u16, u16),
    /// a · (b + c) is not a · b + a · c.
    Distribution(u16, u16, u16),
}
