//! Runs the sheet on standard input, and prints a line for each of its calls.
#![tactic(auto)]

use std::io;
use transcript::{Room, TextRoom, run};

fn main(rt: HostRuntime) -> anyhow::Result<()> {
    let room = Room::new(rt.alloc())?;
    let text_room = TextRoom::new(rt.alloc())?;
    run(room, text_room, &mut rt.reader(), &mut io::writer(&rt))?;
    Ok(())
}
