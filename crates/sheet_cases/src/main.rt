//! Reads sheets from standard input, one to a line in base sixteen, and prints what came of each. An unrelated program
//! (tools/sheet_cases.py) wrote both the sheets and what should come of them.
#![tactic(auto)]

ghost use Rattle.std.specs.Prelude.{◌<◌, IfOk};

use anyhow::anyhow;
use fault::Fault;
use numbers::Numbers;
use rack::Call;
use sheet::{Room, Sheet, read_sheet};
use std::fmt;

/// A digit of base sixteen. By hand, since `to_digit` takes large letters too.
fn sixteenth(digit: u8) -> anyhow::Result<u8>
    ensures { IfOk result (λ value. value < 16) }
{
    match digit {
        b'0'..=b'9' => Ok(digit - b'0'),
        b'a'..=b'f' => Ok(digit - b'a' + 10),
        _ => Err(anyhow!("no digit of base sixteen")),
    }
}

/// The bytes that a line writes.
fn bytes_of(rt: &HostRuntime, line: &str) -> anyhow::Result<Vec<u8>> {
    let mut bytes = Vec::new(rt.alloc());
    for pair in line.as_bytes().chunks(2) {
        let [high, low] = pair else {
            return Err(anyhow!("an odd number of digits"));
        };
        bytes.push(sixteenth(*high)? * 16 + sixteenth(*low)?)?;
    }
    Ok(bytes)
}

/// A call as a sheet writes it.
#[derive(Clone, Copy)]
struct Written<'a>(&'a Call);

impl<'a> fmt::Display for Written<'a> {
    fn fmt<W: fmt::Write>(&self, f: &mut fmt::Formatter<W>) -> fmt::Result {
        match self.0 {
            Call::Open { channel, slot } => write!(f, "open {channel} {slot}"),
            Call::Put {
                channel,
                slot,
                position,
                residue,
            } => {
                let codes = Numbers(residue.as_slice());
                write!(f, "put {channel} {slot} {position}{codes}")
            }
            Call::Strike {
                channel,
                slot,
                position,
            } => write!(f, "strike {channel} {slot} {position}"),
            Call::Read {
                channel,
                slot,
                buffer: _,
            } => write!(f, "read {channel} {slot}"),
            Call::Measure {
                channel,
                slot,
                message,
            } => {
                let codes = Numbers(message.as_slice());
                write!(f, "measure {channel} {slot}{codes}")
            }
            Call::Close { channel, slot } => write!(f, "close {channel} {slot}"),
        }
    }
}

/// What a sheet says, on one line.
#[derive(Clone, Copy)]
struct Content<'a>(&'a Sheet);

impl<'a> fmt::Display for Content<'a> {
    fn fmt<W: fmt::Write>(&self, f: &mut fmt::Formatter<W>) -> fmt::Result {
        let Sheet {
            field,
            carriers,
            moduli,
            calls,
        } = self.0;
        let codes = Numbers(moduli.as_slice());
        write!(f, "{field} {carriers}{codes}")?;
        for call in calls {
            let call = Written(call);
            write!(f, " | {call}")?;
        }
        Ok(())
    }
}

fn run(rt: &HostRuntime) -> anyhow::Result<()> {
    for line in rt.lines(rt.alloc()) {
        let line = line?;
        let bytes = bytes_of(rt, line.as_str())?;
        let room = Room::new(rt.alloc())?;
        match read_sheet(room, bytes.as_slice()) {
            Ok(sheet) => println!(rt; "ok {}", Content(&sheet))?,
            Err(fault) => println!(rt; "{}", fault.ground())?,
        }
    }
    Ok(())
}

fn main(rt: HostRuntime) -> anyhow::Result<()> {
    run(&rt)
}
