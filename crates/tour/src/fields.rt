//! The three fields: a sample is scaled and shifted, and found again.
ghost use Rattle.std.specs.Prelude.{◌≡◌, ◌<◌};

use field::{Bits, Bytes, Clock, Field};

/// Solves gain · x + offset = level, where the gain is a code other than 0 and the others are codes.
fn solve<F: Field>(gain: u16, offset: u16, level: u16) -> u16
    ensures { 0 < gain → gain < F.Field.arithmetic.order → offset < F.Field.arithmetic.order → level < F.Field.arithmetic.order → F.Field.arithmetic.sum (F.Field.arithmetic.product gain result) offset ≡ level }
{
    let difference = F::sum(level, F::negative(offset));
    F::product(difference, F::inverse(gain))
}

/// Scales a sample by the gain, adds the offset, and then finds the sample again from the result.
fn show_field<F: Field, R: Print>(
    rt: &R,
    name: &str,
    sample: u16,
    gain: u16,
    offset: u16,
) -> anyhow::Result<()> {
    let level = F::sum(F::product(gain, sample), offset);
    let found = solve::<F>(gain, offset, level);
    let order = F::ORDER;
    println!(rt; "The field {name} has {order} codes, 0 to {}.", order - 1)?;
    println!(rt; "  Sample {sample} at gain {gain} and offset {offset} becomes {level}.")?;
    println!(rt; "  Solving for the sample gives {found} again.")?;
    Ok(())
}

pub(crate) fn show_fields<R: Print>(rt: &R) -> anyhow::Result<()> {
    println!(rt; "Fields: arithmetic on codes that never leaves the codes.")?;
    show_field::<Bits, R>(rt, "bits", 1, 1, 1)?;
    show_field::<Bytes, R>(rt, "bytes", 128, 2, 7)?;
    show_field::<Clock, R>(rt, "clock", 129, 2, 250)
}
