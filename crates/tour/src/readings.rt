//! The reader on words of which positions are damaged or missing, within the allowance and past it.
use crate::plans::Sample;
use fault::Fault;
use field::Bits;
use numbers::Numbers;
use plan::{MOST_POSITIONS, Plan};
use reader::{Arrived, received};

/// Reads what has arrived, and says what came of it.
fn show_reading<R: Print>(
    rt: &R,
    plan: &Plan<Bits>,
    residues: &[Option<&[u16]>],
) -> anyhow::Result<()> {
    let arrived = Arrived { plan, residues };
    match arrived.read() {
        Ok(reading) => {
            let message = Numbers(reading.codes());
            let margin = reading.margin;
            let wrong = reading.wrong;
            println!(rt;
                "    reads{message}, with margin {margin}, wrong positions of degree {wrong} in all."
            )?;
        }
        Err(fault) => println!(rt; "    is refused: {}", fault.ground())?,
    }
    Ok(())
}

/// Reads the first word of the sample with damaged and with missing positions.
pub(crate) fn show_readings<R: Print>(rt: &R, sample: &Sample) -> anyhow::Result<()> {
    let plan = &sample.plan;
    println!(rt; "Reading: the one message within the allowance, or none.")?;
    println!(rt;
        "  The word with its first code turned and its last position missing, 0|0|1 1|–,"
    )?;
    let mut damaged = sample.first;
    damaged[0] = 0;
    let mut present = [true; MOST_POSITIONS];
    present[3] = false;
    show_reading(rt, plan, &received(plan, &damaged, &present))?;
    println!(rt; "  The word with its last position turned to zeros, 1|0|1 1|0 0 0,")?;
    let mut damaged = sample.first;
    damaged[4..7].fill(0);
    let present = [true; MOST_POSITIONS];
    show_reading(rt, plan, &received(plan, &damaged, &present))?;
    println!(rt; "  One position of the four, –|0|–|–,")?;
    let mut present = [false; MOST_POSITIONS];
    present[1] = true;
    show_reading(rt, plan, &received(plan, &sample.first, &present))
}
