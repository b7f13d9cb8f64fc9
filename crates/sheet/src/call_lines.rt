//! Reading one line with a call: its name, its numbers and the end of the line.
ghost use Rattle.std.specs.Prelude.{ℕ};
ghost use Rattle.expression.specs.Cursors.{Here};
ghost use Rattle.sheet.specs.CallLines.{CallTold};
ghost use Rattle.sheet.specs.CallNumbers.{HeadingAt};
ghost use Rattle.sheet.specs.CallTexts.{TextTold};
ghost use Rattle.sheet.specs.declared.call_names.CallName.TheVariants.{Measure, Put, Strike};

use crate::call_names::{CallName, call_name};
use crate::limits::{MOST_MEASURE_CODES, MOST_PUT_CODES};
use crate::numbers::{Heading, channel_and_slot, code_row, number};
use crate::rooms::Row;
use crate::signs::expected_sign;
use expression::{Cursor, Parsed, Sign, Stop};
use rack::Call;

/// The position and the residue of a put, after channel and slot.
fn put(row: Row, from: Cursor, heading: Heading) -> Result<Parsed<Call>, Stop>
    ensures { Here from.entry (λ s j. (i : ℕ) → HeadingAt s i heading j → TextTold Put s i result) }
{
    let position = number(from)?;
    let residue = code_row(row, from.at(position.end), MOST_PUT_CODES)?;
    Ok(Parsed {
        value: Call::Put {
            channel: heading.channel,
            slot: heading.slot,
            position: usize::from(position.value),
            residue: residue.value,
        },
        end: residue.end,
    })
}

/// The position of a strike, after channel and slot.
fn strike(from: Cursor, heading: Heading) -> Result<Parsed<Call>, Stop>
    ensures { Here from.entry (λ s j. (i : ℕ) → HeadingAt s i heading j → TextTold Strike s i result) }
{
    let position = number(from)?;
    Ok(Parsed {
        value: Call::Strike {
            channel: heading.channel,
            slot: heading.slot,
            position: usize::from(position.value),
        },
        end: position.end,
    })
}

/// The message of a measure, after channel and slot.
fn measure(row: Row, from: Cursor, heading: Heading) -> Result<Parsed<Call>, Stop>
    ensures { Here from.entry (λ s j. (i : ℕ) → HeadingAt s i heading j → TextTold Measure s i result) }
{
    let message = code_row(row, from, MOST_MEASURE_CODES)?;
    Ok(Parsed {
        value: Call::Measure {
            channel: heading.channel,
            slot: heading.slot,
            message: message.value,
        },
        end: message.end,
    })
}

/// The numbers of the call of this name. A read's buffer is not written on a sheet: it comes out with no
/// codes, and with the row's room.
fn call_text(row: Row, name: CallName, from: Cursor) -> Result<Parsed<Call>, Stop>
    ensures { Here from.entry (λ s i. TextTold name s i result) }
{
    let Parsed {
        value: heading,
        end,
    } = channel_and_slot(from)?;
    let Heading { channel, slot } = heading;
    let call = match name {
        CallName::Open => Call::Open { channel, slot },
        CallName::Put => return put(row, from.at(end), heading),
        CallName::Strike => return strike(from.at(end), heading),
        CallName::Read => Call::Read {
            channel,
            slot,
            buffer: row.codes,
        },
        CallName::Measure => return measure(row, from.at(end), heading),
        CallName::Close => Call::Close { channel, slot },
    };
    Ok(Parsed { value: call, end })
}

/// The call on the line that begins here.
pub(crate) fn call_line(row: Row, from: Cursor) -> Result<Parsed<Call>, Stop>
    ensures { Here from.entry (λ s i. CallTold s i result) }
{
    let name = call_name(from)?;
    let call = call_text(row, name.value, from.at(name.word.end()))?;
    let sign = expected_sign(from.at(call.end), Sign::LineEnd)?;
    Ok(Parsed {
        value: call.value,
        end: sign.end(),
    })
}
