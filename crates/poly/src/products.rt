//! Products.
ghost use Rattle.std.specs.Prelude.{◌≡◌, ◌+◌, ◌<◌, ◌≤◌, length};
ghost use Rattle.algebra.specs.Moduli.{monomial};
ghost use Rattle.algebra.specs.Polynomial.{add, coefficients, multiply, subtract};
ghost use Rattle.poly.specs.Products.{unit};
ghost use Rattle.poly.specs.Slices.{Codes};

use crate::sums::add_scaled;
use field::Field;

/// Whether a product is added or subtracted.
#[derive(Clone, Copy)]
enum Taken {
    Added,
    Subtracted,
}

impl Taken {
    /// The code, or its negative: so a product is subtracted without one product more for each code.
    fn signed<F: Field>(self, code: u16) -> u16
        requires { code < F.Field.arithmetic.order }
        ensures { result ≡ F.Field.arithmetic.product (unit F.Field.arithmetic self) code }
    {
        match self {
            Taken::Added => code,
            Taken::Subtracted => F::negative(code),
        }
    }
}

/// `p + a·b` or `p - a·b`, in the place of `p`.
fn add_product<F: Field>(p: &mut [u16], taken: Taken, a: &[u16], b: &[u16])
    requires fits { length a.now + length b.now ≤ length p.old + 1 }
    requires p_codes { Codes F.Field.arithmetic p.old }
    requires a_codes { Codes F.Field.arithmetic a.now }
    requires b_codes { Codes F.Field.arithmetic b.now }
    ensures value { coefficients p.new ≡ add F.Field.arithmetic (coefficients p.old) (multiply F.Field.arithmetic (monomial (unit F.Field.arithmetic taken) 0) (multiply F.Field.arithmetic (coefficients a.now) (coefficients b.now))) }
    ensures codes { Codes F.Field.arithmetic p.new }
{
    for (shift, code) in a.iter().enumerate() {
        add_scaled::<F>(p, taken.signed::<F>(*code), shift, b);
    }
}

/// `a·b`, written over the whole of `product`.
pub fn multiply<F: Field>(a: &[u16], b: &[u16], product: &mut [u16])
    requires fits { length a.now + length b.now ≤ length product.old + 1 }
    requires a_codes { Codes F.Field.arithmetic a.now }
    requires b_codes { Codes F.Field.arithmetic b.now }
    ensures value { coefficients product.new ≡ multiply F.Field.arithmetic (coefficients a.now) (coefficients b.now) }
    ensures codes { Codes F.Field.arithmetic product.new }
{
    product.fill(0);
    add_product::<F>(product, Taken::Added, a, b);
}

/// `p - a·b`, in the place of `p`.
pub fn subtract_product<F: Field>(p: &mut [u16], a: &[u16], b: &[u16])
    requires fits { length a.now + length b.now ≤ length p.old + 1 }
    requires p_codes { Codes F.Field.arithmetic p.old }
    requires a_codes { Codes F.Field.arithmetic a.now }
    requires b_codes { Codes F.Field.arithmetic b.now }
    ensures value { coefficients p.new ≡ subtract F.Field.arithmetic (coefficients p.old) (multiply F.Field.arithmetic (coefficients a.now) (coefficients b.now)) }
    ensures codes { Codes F.Field.arithmetic p.new }
{
    add_product::<F>(p, Taken::Subtracted, a, b);
}
