//! Reading: the one message within the allowance of what has arrived.
ghost use Rattle.plan.specs.Held.{scheme};
ghost use Rattle.reader.specs.Answers.{Answered, Padded};
ghost use Rattle.reader.specs.Arrivals.{account_of};

use crate::answers::{ReaderFault, Reading, message_in};
use crate::arrived::Arrived;
use crate::tally::margin_of;
use field::Field;

impl<'a, F: Field> Arrived<'a, F> {
    /// The message within the allowance, with its margin and e; or why there is none. It is the only
    /// candidate that the usable residues leave, and its own margin decides.
    pub fn read(&self) -> Result<Reading, ReaderFault>
        ensures answer { Answered (scheme self.now.plan.now) (account_of self.now.residues.now) result }
        ensures padded { Padded (scheme self.now.plan.now) result }
    {
        let message_length = self.plan.message_length();
        let redundancy = self.redundancy();
        let missing = self.missing_degrees();
        if missing > redundancy {
            return Err(ReaderFault::TooMuchMissing(missing - redundancy));
        }
        let joined = self.gather();
        if joined.degree < message_length {
            return Err(ReaderFault::NoMessage);
        }
        let Some(message) = joined.candidate(message_length) else {
            return Err(ReaderFault::NoMessage);
        };
        let wrong = self.wrong_degrees(message_in(self.plan, &message));
        let margin = margin_of(redundancy, missing, wrong);
        if margin < 0 {
            return Err(ReaderFault::NoMessage);
        }
        Ok(Reading {
            message,
            count: message_length,
            margin,
            wrong,
        })
    }
}
