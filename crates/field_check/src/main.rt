//! Tells of operations on codes whether they are those of a field; and if not, which law they break, and at
//! which codes. What the check refuses as a field is written here as code, tried at every code and every
//! pair, and handed on as tables.
#![tactic(auto)]

mod operations;
mod sentences;

use operations::{Alternatives, ByFourthAndOne, ByFourthAndX, ModuloNine, Operations};
use sentences::Sentence;
use small_field::Tables;

/// Tries the operations, and says what came of it.
fn show<O: Operations, R: Print + AllocGlobal>(rt: &R, name: &str) -> anyhow::Result<()> {
    let heap = rt.alloc();
    let mut sums = Vec::new(heap);
    let mut negatives = Vec::new(heap);
    let mut products = Vec::new(heap);
    for a in 0..O::ORDER {
        negatives.push(O::negative(a))?;
        for b in 0..O::ORDER {
            sums.push(O::sum(a, b))?;
            products.push(O::product(a, b))?;
        }
    }
    let tables = Tables {
        order: O::ORDER,
        sums: &sums,
        negatives: &negatives,
        products: &products,
    };
    match tables.broken_law() {
        Ok(()) => println!(rt; "{name}: a field.")?,
        Err(law) => println!(rt; "{name}: no field, since {}.", Sentence(law))?,
    }
    Ok(())
}

fn main(rt: HostRuntime) -> anyhow::Result<()> {
    show::<ByFourthAndX, HostRuntime>(&rt, "nibbles reduced by x^4 + x + 1")?;
    show::<ByFourthAndOne, HostRuntime>(&rt, "nibbles reduced by x^4 + 1")?;
    show::<ModuloNine, HostRuntime>(&rt, "the numbers modulo 9")?;
    show::<Alternatives, HostRuntime>(&rt, "two codes with `or` for the sum")
}
