//! From what a sheet is read from to what its lines are written to.
ghost use Rattle.std.specs.Prelude.{◌≡◌, ◌<◌, ◌≤◌, IfErr, IfOk, OnOk, length, take};
ghost use Rattle.std.specs.Io.KnownBytes.{Appends, Consumes, IsAtEnd};
ghost use Rattle.transcript.specs.Streams.{Fails, PartPrinted, RunTold};

use crate::ends::{Sink, Source};
use crate::rooms::{Room, TextRoom};
use crate::sheets::transcript_of;
use sheet::LONGEST_SHEET;
use std::io;
use thiserror::Error;

/// No more is read than shows that a sheet is too long.
pub const MOST_READ: usize = LONGEST_SHEET + 1;

/// Why a sheet was not run from its source to the sink of its lines.
#[derive(Debug, Drop, Error)]
pub enum RunError {
    /// The sheet was not read; nothing was written.
    #[error("the sheet was not read: {0}")]
    Read(io::Error),
    /// The sheet was read and run, but not all of its lines were written.
    #[error("the lines were not all written: {0}")]
    Write(io::Error),
}

/// Reads a sheet to its end, or as far as shows that it is too long, and writes the text of its transcript,
/// all in one piece and not before the reading has ended. An error of either is handed on as it came.
pub fn run<R: Source, W: Sink>(
    room: Room,
    text_room: TextRoom,
    reader: &mut R,
    writer: &mut W,
) -> Result<(), RunError>
    ensures { RunTold R.fails W.fails (R.left reader.old) (R.left reader.new) (W.holds writer.old) (W.holds writer.new) result }
{
    let mut bytes = [0; MOST_READ];
    let end = match fill(reader, &mut bytes) {
        Ok(end) => end,
        Err(error) => return Err(RunError::Read(error)),
    };
    let text = transcript_of(room, &bytes[..end]).text(text_room);
    match write_out(writer, &text) {
        Ok(()) => Ok(()),
        Err(error) => Err(RunError::Write(error)),
    }
}

// Takes bytes until there are no more, or the buffer is full, and answers how far the buffer then holds what was taken.
fn fill<R: Source>(reader: &mut R, buffer: &mut [u8]) -> io::Result<usize>
    ensures long { length buffer.new ≡ length buffer.old }
    ensures within { IfOk result (λ n. n ≤ length buffer.old) }
    ensures bytes { IfOk result (λ n. Consumes (R.left reader.old) (R.left reader.new) (take n buffer.new)) }
    ensures whole { IfOk result (λ n. n < length buffer.old → IsAtEnd (R.left reader.new)) }
    ensures failed { IfErr result (Fails R.fails) }
{
    let mut end = 0;
    while end < buffer.len() {
        let count = reader.take_some(&mut buffer[end..])?;
        if count == 0 {
            return Ok(end);
        }
        end += count;
    }
    Ok(end)
}

// Hands on the whole text, and sends it on its way.
fn write_out<W: Sink>(writer: &mut W, text: &[u8]) -> io::Result<()>
    ensures whole { OnOk result (Appends (W.holds writer.old) (W.holds writer.new) text.now) }
    ensures part { PartPrinted (W.holds writer.old) (W.holds writer.new) text.now }
    ensures failed { IfErr result (Fails W.fails) }
{
    let mut written = 0;
    while written < text.len() {
        written += writer.put_some(&text[written..])?;
    }
    writer.send()
}
