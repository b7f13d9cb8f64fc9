//! The values of expressions: what a number, a power of z, a sum and a product are worth over a field given
//! by its name. A value is nine codes, lowest power first, or none once a limit was passed.
ghost use Rattle.std.specs.Prelude.{◌≡◌, ◌-◌, ◌<◌, ◌∷◌, ◌++◌, replicate};
ghost use Rattle.algebra.specs.Field.{Arithmetic};
ghost use Rattle.plan.specs.Limits.{modulus_codes};
ghost use Rattle.expression.specs.Codes.{InField};
ghost use Rattle.expression.specs.Fields.{arithmetic_of};
ghost use Rattle.expression.specs.Values.{Value, fitted, number_value, power_value, product_value, sum_value};

use crate::limits::PRODUCT_CODES;
use crate::names::FieldName;
use field::{Bits, Bytes, Clock, Field};
use plan::MODULUS_CODES;

/// Nine codes, or none once a number was no code or a degree passed eight.
pub type Value = Option<[u16; MODULUS_CODES]>;

/// How a value is formed, written once for every field.
pub trait Operation {
    ghost asks: { Arithmetic → Self → Type 0 };

    ghost worth: { Arithmetic → Self → Value };

    fn over<F: Field>(self) -> Value
        requires { asks F.Field.arithmetic self }
        ensures { result ≡ worth F.Field.arithmetic self };
}

/// The value that is formed over the field of this name.
pub fn worth<O: Operation>(field: FieldName, operation: O) -> Value
    requires { O.asks (arithmetic_of field) operation }
    ensures { result ≡ O.worth (arithmetic_of field) operation }
{
    match field {
        FieldName::Bits => operation.over::<Bits>(),
        FieldName::Bytes => operation.over::<Bytes>(),
        FieldName::Clock => operation.over::<Clock>(),
    }
}

/// A number, which stands for the code that it is.
#[derive(Clone, Copy)]
pub struct Number(pub u16);

impl Operation for Number {
    ghost asks = { λ _ _. Unit {0} };

    ghost worth = { λ f number. number_value f number.0 };

    fn over<F: Field>(self) -> Value {
        (self.0 < F::ORDER).then_some(monomial(self.0, 0))
    }
}

/// The sum of two values.
#[derive(Clone, Copy)]
pub struct SumOf(pub Value, pub Value);

impl Operation for SumOf {
    ghost asks = { λ f sum. InField f sum.0 × InField f sum.1 };

    ghost worth = { λ f sum. sum_value f sum.0 sum.1 };

    fn over<F: Field>(self) -> Value {
        let (mut total, other) = self.0.zip(self.1)?;
        poly::add_to::<F>(&mut total, &other);
        Some(total)
    }
}

/// The product of two values.
#[derive(Clone, Copy)]
pub struct ProductOf(pub Value, pub Value);

impl Operation for ProductOf {
    ghost asks = { λ f product. InField f product.0 × InField f product.1 };

    ghost worth = { λ f product. product_value f product.0 product.1 };

    fn over<F: Field>(self) -> Value {
        let (one, other) = self.0.zip(self.1)?;
        let mut product = [0; PRODUCT_CODES];
        poly::multiply::<F>(&one, &other, &mut product);
        fit(&product)
    }
}

/// z to the power `n`.
pub fn power_value(n: u16) -> Value
    ensures { result ≡ power_value n }
{
    let exponent = usize::from(n);
    if exponent < MODULUS_CODES {
        Some(monomial(1, exponent))
    } else {
        None
    }
}

// One code times a power of z, as nine codes.
fn monomial(code: u16, exponent: usize) -> [u16; MODULUS_CODES]
    requires { exponent < modulus_codes }
    ensures { result ≡ replicate exponent 0 ++ (code ∷ replicate (modulus_codes - 1 - exponent) 0) }
{
    let mut codes = [0; MODULUS_CODES];
    codes[exponent] = code;
    codes
}

// The first nine codes of a product, if those after them are 0: else its degree passed eight.
fn fit(product: &[u16; PRODUCT_CODES]) -> Value
    ensures { result ≡ fitted product.now }
{
    // There are nine: a product has room for more.
    let (codes, later) = product.split_first_chunk::<MODULUS_CODES>()?;
    later.iter().all(|code| *code == 0).then_some(*codes)
}
