//! A tour of the library: each layer does one real task and says what it did.
#![tactic(auto)]

mod fields;
mod lists;
mod plans;
mod racks;
mod readings;
mod shown;

use fields::show_fields;
use lists::show_lists;
use plans::{Sample, show_plans};
use racks::show_racks;
use readings::show_readings;
use std::alloc::Global;

fn tour<R: Print>(rt: &R, heap: Global) -> anyhow::Result<()> {
    show_fields(rt)?;
    let sample = Sample::new()?;
    show_plans(rt, &sample)?;
    show_readings(rt, &sample)?;
    show_racks(rt, &sample)?;
    show_lists(rt, heap, &sample)
}

fn main(rt: HostRuntime) -> anyhow::Result<()> {
    tour(&rt, rt.alloc())
}
