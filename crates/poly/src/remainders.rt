//! Remainders by a modulus whose leading code is 1: no inverse is needed, and no other buffer than the residue's own.
ghost use Rattle.std.specs.Prelude.{◌≡◌, ◌+◌, ◌<◌, ◌≤◌, ◌∷◌, length};
ghost use Rattle.algebra.specs.Polynomial.{coefficients};
ghost use Rattle.algebra.specs.Remainder.{IsRemainder, cleared, remainder};
ghost use Rattle.poly.specs.Slices.{Codes};

use field::Field;

/// `code + z·residue` less the multiple of the modulus that clears its highest coefficient, in the place of
/// the residue.
fn shift_in<F: Field>(residue: &mut [u16], modulus: &[u16], code: u16)
    requires least { 1 ≤ length residue.old }
    requires fits { length residue.old < length modulus.now }
    ensures { residue.new ≡ cleared F.Field.arithmetic (length residue.old) (coefficients modulus.now) (code ∷ residue.old) }
{
    let top = residue[residue.len() - 1];
    let mut lower = code;
    for (i, factor) in modulus[..residue.len()].iter().enumerate() {
        // Read before it is written: so the loop goes by several codes at a time.
        let next = residue[i];
        residue[i] = F::sum(lower, F::negative(F::product(top, *factor)));
        lower = next;
    }
}

/// The remainder of `p` by a modulus of degree d with leading code 1: the modulus has d + 1 codes and the
/// residue d. The codes of `p` go in from the highest down. Of numbers that are no codes, or another leading
/// code, it is what the same operations give.
pub fn reduce<F: Field>(p: &[u16], modulus: &[u16], residue: &mut [u16])
    requires least { 1 ≤ length residue.old }
    requires fits { length modulus.now ≡ length residue.old + 1 }
    ensures value { residue.new ≡ remainder F.Field.arithmetic (length residue.old) (coefficients modulus.now) p.now }
    ensures divided { Codes F.Field.arithmetic p.now → Codes F.Field.arithmetic modulus.now → coefficients modulus.now (length residue.old) ≡ 1 → IsRemainder F.Field.arithmetic (length residue.old) (coefficients modulus.now) (coefficients p.now) (coefficients residue.new) }
    ensures codes { Codes F.Field.arithmetic residue.new }
{
    residue.fill(0);
    for code in p.iter().rev() {
        shift_in::<F>(residue, modulus, *code);
    }
}
