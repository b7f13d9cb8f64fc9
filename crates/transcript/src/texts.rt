//! The text of a transcript, made whole before any of it is handed to an output.
ghost use Rattle.std.specs.Prelude.{◌≡◌, ◌+◌, ◌<◌, ◌≤◌, ◌++◌, [], ◌∷◌, length, OnErr, OnOk, vec_capacity, vec_items, vec_len};
ghost use Rattle.expression.specs.Bytes.{line_end};
ghost use Rattle.fault.specs.Shown.{line};
ghost use Rattle.sheet.specs.Limits.{most_calls};
ghost use Rattle.transcript.specs.Limits.{longest_text};
ghost use Rattle.transcript.specs.Lines.{lines_text, transcript_text};

use crate::ended::Ended;
use crate::lines::LINE_END;
use crate::rooms::TextRoom;
use crate::transcripts::Transcript;
use fault::{Fault, Ground};
use std::alloc::AllocError;

impl Transcript {
    /// The whole text, as it is printed: a line for each call, or the one line of what is refused. It stands
    /// in the room, so that memory is never wanting.
    pub fn text(&self, room: TextRoom) -> Vec<u8>
        ensures { vec_items result ≡ transcript_text self.now }
    {
        let TextRoom { mut text } = room;
        match self.append_to(&mut text) {
            Ok(()) => text,
            Err(_) => unreachable!(),
        }
    }

    // Appends the text. It fails only where there is no room for it.
    fn append_to(&self, text: &mut Vec<u8>) -> Result<(), AllocError>
        ensures whole { OnOk result (text.new.items ≡ text.old.items ++ transcript_text self.now) }
        ensures full { OnErr result (vec_capacity text.old < vec_len text.old + longest_text) }
    {
        match self {
            Transcript::NoSheet(fault) => append_refusal(text, fault.ground()),
            Transcript::NoPlan(fault) => append_refusal(text, fault.ground()),
            Transcript::Ran(calls) => append_calls(text, &calls.ended),
        }
    }
}

// Appends the line of a refusal and its end.
fn append_refusal(text: &mut Vec<u8>, ground: Ground) -> Result<(), AllocError>
    ensures whole { OnOk result (text.new.items ≡ text.old.items ++ (line ground ++ line_end ∷ [])) }
    ensures full { OnErr result (vec_capacity text.old < vec_len text.old + longest_text) }
{
    text.extend_from_slice(ground.line().as_bytes())?;
    text.push(LINE_END)?;
    Ok(())
}

// Appends the lines of calls, of which there are few enough that the text is short.
fn append_calls(text: &mut Vec<u8>, ended: &[Ended]) -> Result<(), AllocError>
    requires { length ended.now ≤ most_calls }
    ensures whole { OnOk result (text.new.items ≡ text.old.items ++ lines_text ended.now) }
    ensures full { OnErr result (vec_capacity text.old < vec_len text.old + longest_text) }
{
    for call in ended {
        call.append_to(text)?;
    }
    Ok(())
}
