//! Compares the library with values that an unrelated program made (tools/field_vectors.py), one to a line of standard
//! input: the field's name, the operation, its numbers, and the answer.
#![tactic(auto)]

use anyhow::{Context, anyhow};
use field::{Bytes, Clock, Field};

#[derive(Clone, Copy, Default)]
struct Tally {
    agree: u32,
    differ: u32,
}

impl Tally {
    fn count(&mut self, same: bool) {
        if same {
            self.agree = self.agree.saturating_add(1);
        } else {
            self.differ = self.differ.saturating_add(1);
        }
    }
}

fn number(word: Option<&str>) -> anyhow::Result<u16> {
    Ok(word.context("a number is missing")?.parse::<u16>()?)
}

// One operation of a field, against the answer that the line gives.
fn agrees<F: Field>(line: &str) -> anyhow::Result<bool> {
    let mut words = line.split(' ').skip(1);
    let operation = words.next();
    let a = number(words.next())?;
    match operation {
        Some("product") => {
            let b = number(words.next())?;
            Ok(F::product(a, b) == number(words.next())?)
        }
        Some("inverse") => Ok(F::inverse(a) == number(words.next())?),
        _ => Err(anyhow!("no such operation")),
    }
}

fn compare(line: &str, tally: &mut Tally) -> anyhow::Result<()> {
    let same = match line.split(' ').next() {
        Some("bytes") => agrees::<Bytes>(line)?,
        Some("clock") => agrees::<Clock>(line)?,
        _ => return Err(anyhow!("no such field")),
    };
    tally.count(same);
    Ok(())
}

fn run(rt: &HostRuntime) -> anyhow::Result<()> {
    let mut tally = Tally::default();
    for line in rt.lines(rt.alloc()) {
        let line = line?;
        compare(line.as_str(), &mut tally)?;
    }
    println!(rt; "{} values agree, {} differ", tally.agree, tally.differ)?;
    Ok(())
}

fn main(rt: HostRuntime) -> anyhow::Result<()> {
    run(&rt)
}
