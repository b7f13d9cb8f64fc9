//! Runs each sheet of the folder data/, and compares what is printed with the lines beside it, which an
//! unrelated program (tools/sheet_lines.py) wrote.
#![tactic(auto)]

use anyhow::Context;
use std::collections::BTreeSet;
use std::{fs, str};
use transcript::{Room, TextRoom, transcript_of};

// What the names of a sheet and of its lines end with.
const SHEET: &str = ".sheet";

const LINES: &str = ".lines";

/// The names of the sheets in the folder that the program runs in, in their order.
fn names_of_sheets(rt: &HostRuntime) -> anyhow::Result<Vec<String>> {
    let mut names = Vec::new(rt.alloc());
    for entry in fs::read_dir(rt, ".")? {
        let entry = entry?;
        if let Some(name) = entry.file_name().strip_suffix(SHEET) {
            names.push(String::from_str(rt.alloc(), name)?)?;
        }
    }
    names.sort()?;
    Ok(names)
}

/// The number of the ground on a line that refuses.
fn ground_on(line: &str) -> Option<u8> {
    line.strip_prefix("no ")?
        .split(' ')
        .next()?
        .parse::<u8>()
        .ok()
}

/// Runs one sheet, and says whether it came out as expected, and where it did not, what was expected and what
/// came. Notes the grounds.
fn try_sheet(rt: &HostRuntime, name: &str, grounds: &mut BTreeSet<u8>) -> anyhow::Result<()> {
    let sheet = fs::read(rt, format!(in rt.alloc(); "{name}{SHEET}")?)?;
    let expected = fs::read_to_string(rt, format!(in rt.alloc(); "{name}{LINES}")?)?;
    let text = transcript_of(Room::new(rt.alloc())?, &sheet).text(TextRoom::new(rt.alloc())?);
    let told = str::from_utf8(&text)?;
    for line in told.lines() {
        if let Some(number) = ground_on(line) {
            grounds.insert(number)?;
        }
    }
    if told == expected.as_str() {
        println!(rt; "{name}: as expected")?;
    } else {
        println!(rt; "{name}: expected\n{expected}but came\n{told}")?;
    }
    Ok(())
}

fn main(rt: HostRuntime) -> anyhow::Result<()> {
    let mut grounds = BTreeSet::new(rt.alloc());
    for name in names_of_sheets(&rt)? {
        try_sheet(&rt, name.as_str(), &mut grounds).with_context(|| name.as_str())?;
    }
    print!(rt; "grounds that a line names:")?;
    for number in grounds.iter() {
        print!(rt; " {number}")?;
    }
    println!(rt;)?;
    Ok(())
}
