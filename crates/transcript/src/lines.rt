//! The line that says how a call ended, made whole.
ghost use Rattle.std.specs.Prelude.{◌≡◌, ◌+◌, ◌<◌, ◌≤◌, ◌++◌, codes, decimal, length, OnErr, OnOk, vec_capacity, vec_len};
ghost use Rattle.std.specs.Fmt.{signed_decimal};
ghost use Rattle.fault.specs.Shown.{longest_line, spaced};
ghost use Rattle.fault.specs.Texts.{written};
ghost use Rattle.plan.specs.Limits.{most_total};
ghost use Rattle.transcript.specs.Limits.{longest_call_line};
ghost use Rattle.transcript.specs.Lines.{call_line};
ghost use Rattle.transcript.specs.Parts.{codes_of, words_of};

use crate::ended::Ended;
use fault::{Fault, ShortText};
use numbers::Numbers;
use rack::{Answer, Call};
use std::alloc::AllocError;

// What a line ends in.
pub(crate) const LINE_END: u8 = b'\n';

impl Ended {
    // What stands on the line before any codes.
    fn words(&self) -> ShortText
        ensures whole { written result ≡ words_of self.now.outcome }
        ensures short { length (written result) ≤ longest_line }
    {
        match &self.outcome {
            Err(fault) => fault.ground().line(),
            Ok(Answer::Done) => ShortText::new("ok"),
            Ok(Answer::Margin(margin)) => ShortText::new("ok ").signed(*margin),
            Ok(Answer::Message(found)) => found_words(found.margin, found.wrong),
        }
    }

    // The codes that stand on the line: those of the message, where one was read.
    fn codes(&self) -> &[u16]
        ensures value { result.now ≡ codes_of self.now }
        ensures short { length result.now ≤ most_total }
    {
        match (&self.outcome, &self.call) {
            (Ok(Answer::Message(_)), Call::Read { buffer, .. }) => buffer.as_slice(),
            _ => &[],
        }
    }

    // Appends the line and its end. It fails only where there is no room for them.
    pub(crate) fn append_to(&self, text: &mut Vec<u8>) -> Result<(), AllocError>
        ensures whole { OnOk result (text.new.items ≡ text.old.items ++ call_line self.now) }
        ensures short { OnOk result (vec_len text.new ≤ vec_len text.old + longest_call_line) }
        ensures capacity { vec_capacity text.old ≤ vec_capacity text.new }
        ensures full { OnErr result (vec_capacity text.old < vec_len text.old + longest_call_line) }
    {
        text.extend_from_slice(self.words().as_bytes())?;
        Numbers(self.codes()).append_to(text)?;
        text.push(LINE_END)?;
        Ok(())
    }
}

// What stands on the line of an accepted read before its message.
fn found_words(margin: i32, wrong: usize) -> ShortText
    ensures whole { written result ≡ spaced (codes "ok") (spaced (signed_decimal margin) (decimal wrong)) }
    ensures short { length (written result) ≤ longest_line }
{
    ShortText::new("ok ").signed(margin).text(" ").number(wrong)
}
