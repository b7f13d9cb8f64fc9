//! Finite fields on codes: the interface that every field implements, and the three fields of the generator.
//! What a field means and the laws that it keeps are stated in the crate `algebra`.
#![tactic(auto)]

ghost use Rattle.std.specs.Prelude.{◌≡◌, ℕ, if◌then◌else◌, nat_lt};
ghost use Rattle.algebra.specs.Field.{Arithmetic, FieldLaws};

mod bit_field;
mod byte_exponents;
mod byte_field;
mod byte_powers;
mod clock_field;
mod clock_inverses;

pub use bit_field::Bits;
pub use byte_field::Bytes;
pub use clock_field::Clock;

/// A finite field. An element is written as its code, a number below the field's order; an operation given
/// any other number answers 0.
pub trait Field {
    /// How many elements there are, from 2 to 32,768.
    const ORDER: u16;

    // The value of the constant, which clauses can name.
    ghost ORDER: { ℕ };

    // The meaning: the order, and the four answers as functions of the codes alone.
    ghost arithmetic: { Arithmetic };

    fn sum(a: u16, b: u16) -> u16
        ensures { result ≡ arithmetic.sum a b };

    fn negative(a: u16) -> u16
        ensures { result ≡ arithmetic.negative a };

    fn product(a: u16, b: u16) -> u16
        ensures { result ≡ arithmetic.product a b };

    /// The code whose product with `a` is 1; 0 for 0, which has none.
    fn inverse(a: u16) -> u16
        ensures { result ≡ arithmetic.inverse a };

    ghost lawful: { FieldLaws arithmetic };

    ghost counted: { ORDER ≡ arithmetic.order };
}

/// Takes `a` out of `b` and puts it back: `a + (-a + b)`, which is `b` for all codes of every field. A number that is
/// no code counts as 0 in a sum with one, and makes the whole 0 where it stands first.
pub fn put_back<F: Field>(a: u16, b: u16) -> u16
    ensures { result ≡ (if nat_lt a F.Field.arithmetic.order then (if nat_lt b F.Field.arithmetic.order then b else a) else 0) }
{
    F::sum(a, F::sum(F::negative(a), b))
}
